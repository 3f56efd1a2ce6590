// Sets of small numbers as the bits of a number: of states or outputs in a u16, of suspects in a u32.
ghost use Rattle.std.specs.Prelude.{◌≡◌, true, false, ⊤, ℕ, ◌%◌, ◌<◌, ◌≤◌, ◌^◌, MatchOption};
ghost use Rattle.std.specs.Iterator.{at_most};
ghost use Rattle.std.proofs.Common.{rules};
ghost use Rattle.cubes.specs.Sets.{Has, HasAll, NoneBelow, Joined, Shared, Without, Later};

// By state, or by output, such a set.
pub type Sets = [u16; 16];

pub trait Set: Copy {
    // How many numbers can be members.
    const ROOM: u8;

    ghost ROOM: { ℕ };

    // The set as the number whose bits say which are.
    ghost number: { Self → ℕ };

    fn bits(self) -> u32
        ensures { (result ≡ number self) × (result < 2 ^ ROOM) };

    fn of_bits(n: u32) -> Self
        requires { n < 2 ^ ROOM }
        ensures { number result ≡ n };

    ghost roomy: { (0 < ROOM) × (ROOM ≤ 32) };
}

impl Set for u16 {
    const ROOM: u8 = 16;

    ghost ROOM = { 16 };

    ghost number = { λ n. n };

    ghost roomy = { Prim.search rules };

    fn bits(self) -> u32 {
        u32::from(self)
    }

    fn of_bits(n: u32) -> u16 {
        n as u16
    }
}

impl Set for u32 {
    const ROOM: u8 = 32;

    ghost ROOM = { 32 };

    ghost number = { λ n. n };

    ghost roomy = { Prim.search rules };

    fn bits(self) -> u32 {
        self
    }

    fn of_bits(n: u32) -> u32 {
        n
    }
}

// Whether a number is a member. Here and below it is taken modulo the room.
pub fn holds<S: Set>(set: S, i: u8) -> bool
    ensures modulo { (result ≡ true → Has (S.number set) (i % S.ROOM)) × (result ≡ false → Has (S.number set) (i % S.ROOM) → ⊥) }
    ensures exact { i < S.ROOM → (result ≡ true → Has (S.number set) i) × (result ≡ false → Has (S.number set) i → ⊥) }
{
    (set.bits() >> (i % S::ROOM)) % 2 == 1
}

// The set with one member more.
pub fn with<S: Set>(set: S, i: u8) -> S
    ensures { Joined (S.number set) (2 ^ (i % S.ROOM)) (S.number result) }
{
    S::of_bits(set.bits() | 1 << (i % S::ROOM))
}

pub fn union<S: Set>(a: S, b: S) -> S
    ensures { Joined (S.number a) (S.number b) (S.number result) }
{
    S::of_bits(a.bits() | b.bits())
}

pub fn shared<S: Set>(a: S, b: S) -> S
    ensures { Shared (S.number a) (S.number b) (S.number result) }
{
    S::of_bits(a.bits() & b.bits())
}

// The members of the one set that are not in the other.
pub fn less<S: Set>(a: S, b: S) -> S
    ensures { Without (S.number a) (S.number b) (S.number result) }
{
    let a = a.bits();
    S::of_bits(a ^ (a & b.bits()))
}

pub fn within<S: Set>(a: S, b: S) -> bool
    ensures { result ≡ true → HasAll (S.number a) (S.number b) }
{
    let some = a.bits();
    let all = b.bits();
    (some | all) == all
}

// How many states a set has.
pub fn size(set: u16) -> u32
    ensures { result < 32 }
{
    set.count_ones() % 32
}

// The least member of a set that has one.
pub fn least<S: Set>(set: S) -> u8
    ensures bound { result < S.ROOM }
    ensures member { 0 < S.number set → Has (S.number set) result }
    ensures first { 0 < S.number set → NoneBelow (S.number set) result }
{
    (set.bits().trailing_zeros() as u8) % S::ROOM
}

pub fn without_least<S: Set>(set: S) -> S
    ensures later { Later (S.number set) (S.number result) }
    ensures falls { 0 < S.number set → S.number result < S.number set }
{
    let n = set.bits();
    S::of_bits(n & n.saturating_sub(1))
}

// The members that a set has left, the least first.
#[derive(Clone, Copy, Drop)]
pub struct InOrder<S> {
    left: S,
}

impl<S: Set> Iterator for InOrder<S> {
    type Item = u8;

    ghost next_gives = { λ s r t. MatchOption r (S.number s.left ≡ 0) (λ i. (i < S.ROOM) × Has (S.number s.left) i × NoneBelow (S.number s.left) i × Later (S.number s.left) (S.number t.left)) };

    ghost remaining = { λ s. at_most (S.number s.left) };

    fn next(&mut self) -> Option<u8> {
        if self.left.bits() == 0 {
            return None;
        }
        let i = least(self.left);
        self.left = without_least(self.left);
        Some(i)
    }
}

// The members of a set, the least first.
pub fn members<S: Set>(set: S) -> InOrder<S>
    ensures { result.left ≡ set }
{
    InOrder { left: set }
}

// The set of one state or output.
pub fn one(s: u8) -> u16
    requires { s < 16 }
    ensures { result ≡ 2 ^ s }
{
    1 << s
}
