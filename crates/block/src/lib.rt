// The tables of an accepted sheet and its mutants in one block of bytes, filled once and lent.
// Promises that the block's specification and mutants are the sheet's (specs/laws/TabledLaw.antt), and what is read from it.
// Called by the crates of mutants above, which show what its functions require.

#![tactic(auto)]

mod layout;
mod logged;
mod packing;
mod sites;

pub use layout::{
    BLOCK, Block, Step, WAKING, choice_at, choices, initial, input_of, inputs, output_of, pair_of,
    place, rule_output, rule_target, site, slots, some_place, states, transition, wide, wide16,
    wide32,
};
pub use logged::{Observed, PULSE, SEEN, observe};
pub use packing::{Loaded, load};
