// Breadth-first search along RULEs from state 0.
ghost use Rattle.std.specs.Prelude.{◌≡◌, List, ℕ, suc, ◌<◌, length, get_or};
ghost use Rattle.sheet.specs.Sheet.{Sheet};
ghost use Rattle.renaming.specs.Renaming.{meet_from, met_by, number_of};
ghost use Rattle.renaming.proofs.laws.MetLaw.{Met as AreMet};
ghost use Rattle.numbering.specs.words.Searched.{meet_next, Searched, Room, MarkedIn};

// The states met so far, so many: `order` has them at its front, `number` at each state its place among them, 255 where it is not met.
#[derive(Clone, Copy)]
struct Met {
    order: [u8; 16],
    number: [u8; 16],
    count: usize,
}

impl Met {
    // A next state, 255 for none: if it is new, it is met after those met before.
    fn meet(&mut self, t: u8)
        requires { (met : List ℕ) × MarkedIn met self.old × Room met t }
        ensures { (met : List ℕ) → MarkedIn met self.old → Room met t → MarkedIn (meet_next met t) self.new }
    {
        let i = usize::from(t);
        if i < 16 && self.number[i] == 255 {
            self.order[self.count] = t;
            self.number[i] = self.count as u8;
            self.count += 1;
        }
    }

    // The states to which RULEs lead from s, inputs ascending.
    fn meet_from(&mut self, target: &[u8; 256], s: u8, inputs: u8)
        requires { (sh : Sheet) × (met : List ℕ) × Searched sh target.now inputs × (s < sh.size.states) × AreMet sh.size.states met × MarkedIn met self.old }
        ensures { (sh : Sheet) (met : List ℕ) → Searched sh target.now inputs → s < sh.size.states → AreMet sh.size.states met → MarkedIn met self.old → MarkedIn (meet_from sh.rules s met inputs) self.new }
    {
        for x in 0..inputs {
            self.meet(target[usize::from(s) * 16 + usize::from(x)]);
        }
    }

    // A look at the i-th state met, if there is one.
    fn look(&mut self, target: &[u8; 256], i: usize, inputs: u8)
        requires { (sh : Sheet) × Searched sh target.now inputs × MarkedIn (met_by sh i) self.old }
        ensures { (sh : Sheet) → Searched sh target.now inputs → MarkedIn (met_by sh i) self.old → MarkedIn (met_by sh (suc i)) self.new }
    {
        if i < self.count {
            let s = self.order[i];
            self.meet_from(target, s, inputs);
        }
    }
}

// Each state's number; 255 past the last state.
pub(crate) fn numbers_of(target: &[u8; 256], states: u8, inputs: u8) -> [u8; 16]
    requires { (sh : Sheet) × Searched sh target.now inputs × (states ≡ sh.size.states) }
    ensures result_len { length result ≡ 16 }
    ensures t_value { (sh : Sheet) → Searched sh target.now inputs → states ≡ sh.size.states → (t : ℕ) → t < sh.size.states → get_or result t 0 ≡ number_of sh t }
{
    let mut met = Met {
        order: [0u8; 16],
        number: [255u8; 16],
        count: 1,
    };
    met.number[0] = 0;
    for i in 0..usize::from(states) {
        met.look(target, i, inputs);
    }
    met.number
}
