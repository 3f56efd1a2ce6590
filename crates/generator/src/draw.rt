// A draw below a bound.
ghost use Rattle.std.specs.Prelude.{◌≡◌, ◌%◌, ◌≤◌};
ghost use Rattle.generator.specs.Generating as generating;

// The draws from a seed, each from the seed that the one before left.
#[derive(Drop)]
pub(crate) struct Draws {
    pub(crate) seed: u32,
}

impl Draws {
    // A number below the bound.
    pub(crate) fn below(&mut self, bound: u8) -> u8
        requires { 1 ≤ bound }
        ensures seed { self.new.seed ≡ generating.next_seed self.old.seed }
        ensures number { result ≡ generating.drawn bound (generating.next_seed self.old.seed) }
    {
        self.seed = self.seed.wrapping_add(0x9E37_79B9);
        ((self.seed ^ (self.seed >> 16)) % u32::from(bound)) as u8
    }
}
