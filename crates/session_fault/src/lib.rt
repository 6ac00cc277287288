// What refuses a book, a call list or the outputs lent with them: the book's own refusal, 1 to 8, then 10 where the list is not whole calls
// or too long, then 9 where an output is too short. The contract cites `specs/Entry.antt`, what the session entry answers and writes.
#![tactic(auto)]

ghost use Rattle.std.specs.Prelude.{◌≡◌};
ghost use Rattle.book.specs.Refusal.{number_of};
ghost use Rattle.session_fault.specs.Entry.{session_fault};

use answer::Refusal;
use book::{Limits, slots};
use reader::read;

// What refuses book, a call list of so many bytes, or outputs with so much room.
pub fn check(
    book: &[u8],
    limits: Limits,
    bytes: usize,
    words: usize,
    room: usize,
) -> Result<(), Refusal>
    ensures { number_of result ≡ session_fault limits book.now bytes words room }
{
    read(book, limits)?;
    if bytes % 4 != 0 {
        return Err(Refusal::CallList);
    }
    if 16384 < bytes {
        return Err(Refusal::CallList);
    }
    let count = bytes / 4;
    if words < 2 * count {
        return Err(Refusal::OutputTooShort);
    }
    if room < slots(book) {
        return Err(Refusal::OutputTooShort);
    }
    Ok(())
}
