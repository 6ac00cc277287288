// Many probes in one go: which assign calls of a list would die, each alone on the opened book. Every book, list and length
// gets an answer, and the lent bytes are written only where no number refuses. The contracts cite probe_model's `specs/Probe.antt` and, below the
// entry, `specs/Ready.antt` and `specs/Trial.antt`.
#![tactic(auto)]

mod entry; // entry.rt: the book opened once, and each call tried on it
mod fault; // fault.rt: what refuses
mod listed; // listed.rt: the parts of a call in the list
mod trial; // trial.rt: one assignment tried and taken back, and a list of them

pub use entry::probe;
