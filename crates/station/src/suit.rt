// Whether a first or a changed sheet will do.
ghost use Rattle.std.specs.Prelude.{◌≡◌};
ghost use Rattle.station.specs.Station.{suited};
ghost use Rattle.station.specs.words.Parts.{suited_answer};

use mutation::judge;
use sheet::Refusal;

// Refused on reading, then 22.
pub(crate) fn suit(sheet: &[u8]) -> Result<(), Refusal>
    ensures { result ≡ suited_answer (suited sheet.now) }
{
    let mut board = [0u8; 32];
    let mut sequence = [0u8; 256];
    match judge(sheet, &mut board, &mut sequence)? {
        None => Ok(()),
        Some(_) => Err(Refusal::new(22, 0)),
    }
}
