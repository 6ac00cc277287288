// Random books and call lists, what the engine wrote compared, and the counts of a comparison: the part of the test program randoms that calls
// neither the entries nor the plain filter. The contracts say nothing, so it is proved to be safe and to end, and no more. Nothing is refused: what
// there is no room for is left out.
#![tactic(auto)]

mod books; // books.rt: random books
mod bytes; // bytes.rt: bytes of books and calls
mod calls; // calls.rt: random call lists
mod counts; // counts.rt: the counts, and how they are printed
mod found; // found.rt: what the engine wrote, compared
mod random; // random.rt: random numbers

pub use books::{Book, make_book};
pub use bytes::Bytes;
pub use calls::make_calls;
pub use counts::{Counter, Counts, Step};
pub use found::{Comparison, FILL16, FILL32};
pub use random::Random;
