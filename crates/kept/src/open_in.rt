// Opens a session in lent memory. It refuses by the book's numbers 1 to 8, then by 9 where a slice of the memory has not its size; every book and every
// length gets an answer. The contracts cite kept_model's `specs/Entries.antt` and `specs/Memory.antt`.
ghost use Rattle.std.specs.Prelude.{◌≡◌, Ok};
ghost use Rattle.answer.specs.Answer.{word_of};
ghost use Rattle.book.specs.Refusal.{number_of};
ghost use Rattle.kept_model.specs.Entries.{open_fault, OpenEntry, OpenReady, OpenedIn};
ghost use Rattle.kept_model.specs.Memory.{memory, sizes};

use crate::numbers::{NUMBERS, write_numbers};
use acts::is_shut;
use answer::{Refusal, Verdict};
use book::{slots, values};
use book_opening::{CELLS, MASKS, PREFIXES, TRAIL};
use entries_model::FULL_LIMITS;
use reader::read;
use running::open_session;

const HEIGHTS: usize = 256;

// Opens a session of the book: its memory then holds the session before the first call.
pub fn open(
    book: &[u8],
    masks: &mut [u32],
    cells: &mut [u16],
    trail: &mut [u8],
    heights: &mut [u16],
    numbers: &mut [usize],
) -> Result<Verdict, Refusal>
    ensures { OpenEntry book.now
        (memory masks.old cells.old trail.old heights.old numbers.old) (word_of result)
        (memory masks.new cells.new trail.new heights.new numbers.new) }
{
    let fits = sized(
        masks.len(),
        cells.len(),
        trail.len(),
        heights.len(),
        numbers.len(),
    );
    check(book, fits)?;
    let n = slots(book);
    Ok(open_exactly(book, &mut masks[..n], cells, trail, numbers))
}

// Whether slices of these lengths have their sizes.
#[tactic(auto, unfolding(kept_model::specs::Memory::sizes))]
fn sized(masks: usize, cells: usize, trail: usize, heights: usize, numbers: usize) -> bool
    ensures { result ≡ sizes masks cells trail heights numbers }
{
    masks == MASKS && cells == CELLS && trail == TRAIL && heights == HEIGHTS && numbers == NUMBERS
}

// What refuses an opening.
fn check(book: &[u8], fits: bool) -> Result<(), Refusal>
    ensures { number_of result ≡ open_fault book.now fits }
{
    read(book, FULL_LIMITS)?;
    if fits {
        return Ok(());
    }
    Err(Refusal::OutputTooShort)
}

// Opens a good book in memory of the right sizes, with just the masks of its slots.
fn open_exactly(
    book: &[u8],
    masks: &mut [u32],
    cells: &mut [u16],
    trail: &mut [u8],
    numbers: &mut [usize],
) -> Verdict
    requires { OpenReady book.now masks.old cells.old trail.old numbers.old }
    ensures { OpenedIn book.now (word_of (Ok result)) masks.new cells.new trail.new numbers.new }
{
    let mut lowers = [0u32; PREFIXES];
    let mut uppers = [0u32; PREFIXES];
    let fresh = open_session(book, masks, cells, trail, &mut lowers, &mut uppers);
    write_numbers(numbers, slots(book), values(book), 0, fresh);
    let standing = fresh.standing;
    if is_shut(standing) {
        return Verdict::Dead;
    }
    Verdict::Live
}
