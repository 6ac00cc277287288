// The cases of the test program edges, but for the calls of the entries: a line's words and numbers, the book and the call list that it makes, and the
// printing of what an entry wrote. The contracts say little: it is proved to be safe and to end, and what is lent and what is unwritten, no more. Nothing
// is refused: what does not fit an array is left out.
#![tactic(auto)]

mod bytes; // bytes.rt: books and call lists as bytes
mod cases; // cases.rt: words that make the book and the call list of a line
mod outputs; // outputs.rt: an entry's outputs, and what they are before it runs
mod print; // print.rt: words that print what an entry wrote
mod scan; // scan.rt: a line's name, words and numbers

pub use cases::Case;
pub use outputs::{Outputs, UNWRITTEN, UNWRITTEN_WORD};
pub use print::show_number;
pub use scan::{Command, Entry, Line, Step, Steps};
