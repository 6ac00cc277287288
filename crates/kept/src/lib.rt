// A session kept in memory that the host lends: opened once, then stepped by lists of calls or by single calls, each from where the last left it. The
// contracts cite kept_model's `specs/Memory.antt`, `specs/Kept.antt` and `specs/Entries.antt`.
#![tactic(auto)]

mod calling; // calling.rt: one call
mod numbers; // numbers.rt: a session in numbers
mod open_in; // open_in.rt: the opening
mod steps; // steps.rt: a list of calls

pub use calling::call;
pub use open_in::open;
pub use steps::step;

// The two words of the answer to a call.
#[repr(C)]
#[derive(Clone, Copy)]
pub struct Words {
    pub first: u32,
    pub second: u32,
}
