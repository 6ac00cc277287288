// The session entry, typed. It refuses by the book's numbers 1 to 8, then by 10 where the call list is not whole calls or too long, then by 9
// where an output is too short; every book, list and length gets an answer. The contracts cite session_fault's `specs/Entry.antt`.
ghost use Rattle.std.specs.Prelude.{length};
ghost use Rattle.answer.specs.Answer.{word_of};
ghost use Rattle.settle_fault.specs.Ready.{Capacity};
ghost use Rattle.session_fault.specs.Entry.{session_of, SessionRan, SessionReady, Exactly};

use answer::{Refusal, Verdict};
use book::{Limits, slots};
use book_opening::{CELLS, PREFIXES, TRAIL};
use running::run_book;
use session_fault::check;

// Runs the call list on a session of the book: two words a call into the front of answers, the last masks into the front of masks.
pub fn run_session(
    book: &[u8],
    limits: Limits,
    calls: &[u8],
    answers: &mut [u32],
    masks: &mut [u32],
) -> Result<Verdict, Refusal>
    requires { Capacity limits }
    ensures { SessionRan (λ xs. xs)
        (session_of limits book.now calls.now (length answers.old) (length masks.old)) (word_of result)
        answers.old masks.old answers.new masks.new }
{
    check(book, limits, calls.len(), answers.len(), masks.len())?;
    let n = slots(book);
    Ok(run_exactly(book, calls, answers, &mut masks[..n]))
}

// The same for a good book and an accepted list, with masks that have just the room for the slots. The arrays have room for 256 slots, 32
// values and 256 open marks.
pub fn run_exactly(book: &[u8], calls: &[u8], answers: &mut [u32], masks: &mut [u32]) -> Verdict
    requires { SessionReady book.now calls.now answers.old masks.old }
    ensures { Exactly book.now calls.now result answers.old answers.new masks.new }
{
    let mut cells = [0u16; CELLS];
    let mut trail = [0u8; TRAIL];
    let mut heights = [0u16; 256];
    let mut lowers = [0u32; PREFIXES];
    let mut uppers = [0u32; PREFIXES];
    let ended = run_book(
        book,
        calls,
        answers,
        masks,
        &mut cells,
        &mut trail,
        &mut heights,
        &mut lowers,
        &mut uppers,
    );
    if ended.live {
        return Verdict::Live;
    }
    Verdict::Dead
}
