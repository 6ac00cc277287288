// Checking from bytes to a word, at the limits of every entry. The contract cites entries_model's `specs/Entries.antt`.
#![tactic(auto)]

ghost use Rattle.std.specs.Prelude.{◌≡◌};
ghost use Rattle.entries_model.specs.Entries.{check_answer};

use answer::{Verdict, word};
use entries_model::FULL_LIMITS;
use reader::read;

// Whether book is a good book. Writes nothing, and never answers dead.
pub fn check(book: &[u8]) -> u32
    ensures { result ≡ check_answer book.now }
{
    word(read(book, FULL_LIMITS).map(|()| Verdict::Live))
}
