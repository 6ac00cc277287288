// What the entries promise, from bytes to bytes, as definitions and laws, and their limits: no functions. specs/ has the promises and what they
// mean, proofs/ their laws: of check, the theorems, and that what is written fits its elements.
#![tactic(auto)]

use book::Limits;

// The limits of every entry: `full_limits` of specs/Entries.antt.
pub const FULL_LIMITS: Limits = Limits {
    slots: 256,
    values: 32,
    rows: 1024,
};
