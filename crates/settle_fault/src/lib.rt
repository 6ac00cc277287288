// What refuses a book, or the output lent with it: the book's own refusal, 1 to 8, then 9 where the output is too short for its masks.
// The contract cites `specs/Settle.antt`, what settle answers and writes. `specs/Ready.antt` is what the functions below that entry rest on.
#![tactic(auto)]

ghost use Rattle.std.specs.Prelude.{◌≡◌};
ghost use Rattle.book.specs.Refusal.{number_of};
ghost use Rattle.settle_fault.specs.Settle.{settle_fault};

use answer::Refusal;
use book::{Limits, slots};
use reader::read;

// What refuses book, or an output with room for so many masks.
pub fn check(book: &[u8], limits: Limits, room: usize) -> Result<(), Refusal>
    ensures { number_of result ≡ settle_fault limits book.now room }
{
    read(book, limits)?;
    if room < slots(book) {
        return Err(Refusal::OutputTooShort);
    }
    Ok(())
}
