// A list of calls run on the segment engine, from a session or from a book's opening: as the plain machine of session_model runs it.
// The contracts cite running_model's `specs/Runs.antt` and `specs/BookRan.antt`.
#![tactic(auto)]

mod books; // books.rt: from a book to a session, and a list of calls from there
mod runs; // runs.rt: a list of calls

pub use books::{open_session, run_book};
pub use runs::run;
