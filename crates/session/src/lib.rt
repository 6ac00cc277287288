// The session entry, typed: a call list, run from a book's opening. Its answer, the words and the last masks are those of the plain machine of
// session_model. The contracts cite session_fault's `specs/Entry.antt`.
#![tactic(auto)]

mod entry; // entry.rt: the session entry, typed

pub use entry::{run_exactly, run_session};
