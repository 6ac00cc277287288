// The settling of a book's masks, typed: the largest stable list within them, or dead.
// `settle` refuses by the book's numbers 1 to 8, then by 9 where the lent output is too short; every book and every length gets an answer.
// Its limits may be any for which the working arrays have room.
// The contracts cite settle_fault's `specs/Settle.antt` and `specs/Ready.antt`.
#![tactic(auto)]

ghost use Rattle.std.specs.Prelude.{◌≡◌, length};
ghost use Rattle.answer.specs.Answer.{word_of};
ghost use Rattle.settling_model.specs.Book.{settled_book};
ghost use Rattle.settle_fault.specs.Settle.{Settles, settle_good, settle_of};
ghost use Rattle.settle_fault.specs.Ready.{Capacity, Ready, Wrote, settled_by};

use answer::{Refusal, Verdict};
use book::{Limits, slots};
use book_masks::clear_masks;
use book_opening::{CELLS, PREFIXES, TRAIL, open_book};
use outcomes::Outcome;
use settle_fault::check;

// Settles the masks of book into the front of masks.
pub fn settle(book: &[u8], limits: Limits, masks: &mut [u32]) -> Result<Verdict, Refusal>
    requires { Capacity limits }
    ensures { Settles (λ xs. xs) (settle_of limits book.now (length masks.old)) (word_of result)
        masks.old masks.new }
{
    check(book, limits, masks.len())?;
    let n = slots(book);
    Ok(settle_exactly(book, &mut masks[..n]))
}

// Settles the masks of a good book in a slice that has just the room for them.
pub fn settle_exactly(book: &[u8], masks: &mut [u32]) -> Verdict
    requires { Ready book.now masks.old }
    ensures { Wrote (settle_good book.now) result masks.new }
{
    if settles(book, masks) {
        return Verdict::Live;
    }
    clear_masks(masks);
    Verdict::Dead
}

// Whether a good book settles, a bool as `settled_by` reads it; if so, masks holds what its masks settle to. The arrays have room for 256 slots and 32 values.
fn settles(book: &[u8], masks: &mut [u32]) -> bool
    requires { Ready book.now masks.old }
    ensures { settled_book book.now ≡ settled_by result masks.new }
{
    let mut cells = [0u16; CELLS];
    let mut trail = [0u8; TRAIL];
    let mut lower_rises = [0u32; PREFIXES];
    let mut upper_rises = [0u32; PREFIXES];
    let outcome = open_book(
        book,
        masks,
        &mut cells,
        &mut trail,
        &mut lower_rises,
        &mut upper_rises,
    );
    match outcome {
        Outcome::Live(_) => true,
        Outcome::Dead(_) => false,
    }
}
