// A plain second filter for small books, written from the words of the rules, for a test to compare the engine with. It shares nothing with the
// engine: no crate, no definition, no law. Its contracts say nothing, so it is proved to be safe and to end, and no more: it is a second
// opinion, and what it answers is worth what its reading of the rules is worth. No care is taken for speed.
//
// At most 31 slots and 8 types. Whatever lies outside an array reads as 0, and a store there does nothing (the crate `arrays`, the one that it stands on).
#![tactic(auto)]

mod lists; // lists.rt: settling, the rules of a stable list repeated
mod machine; // machine.rt: the plain machine of sessions
mod tables; // tables.rt: closing, the rules of a closed table repeated
mod walls; // walls.rt: walls, counted anew by the formula

pub use lists::settle;
pub use machine::{Answer, Call, Opened, Refusal, Session};
pub use tables::Bounds;
pub use walls::Side;

// More rounds than a table of 8 types and 31 slots has values to lose, or a list of masks types: each round but the last takes one away.
const ROUNDS: usize = 10_000;

// What ends closing or settling without a result, by the number that answers it.
#[derive(Debug, Clone, Copy, PartialEq, Eq)]
pub enum Stop {
    // The book is dead, or the decision.
    Dead = 1,
    // The rounds did not suffice.
    Rounds = 2,
}

impl Stop {
    pub fn word(self) -> u32 {
        self as u32
    }
}
