// A session from bytes to bytes, at the limits of every entry. The contracts cite `specs/SessionOut.antt`, entries_model's
// `specs/Entries.antt` and session_fault's `specs/Entry.antt`.
#![tactic(auto)]

ghost use Rattle.std.specs.Prelude.{Ok};
ghost use Rattle.answer.specs.Answer.{word_of};
ghost use Rattle.elements.specs.Elements.{bytes_of};
ghost use Rattle.session_model.specs.Calls.{calls_of};
ghost use Rattle.session_fault.specs.Entry.{SessionRan, session_good};
ghost use Rattle.entries_model.specs.Entries.{SessionEntry};
ghost use Rattle.session_bytes.specs.SessionOut.{SessionOut};

use answer::{Refusal, Verdict, word};
use book::slots;
use elements::write32;
use entries_model::FULL_LIMITS;
use session::run_exactly;
use session_fault::check;

// Runs the call list on a session of the book, into the fronts of answers and masks.
pub fn session(book: &[u8], calls: &[u8], answers: &mut [u8], masks: &mut [u8]) -> u32
    ensures { SessionEntry book.now calls.now answers.old masks.old result answers.new masks.new }
{
    word(run_into(book, calls, answers, masks))
}

// The same, before the answer is a word. The list is run in arrays of 8,192 words and 256 masks.
fn run_into(
    book: &[u8],
    calls: &[u8],
    answers: &mut [u8],
    masks: &mut [u8],
) -> Result<Verdict, Refusal>
    ensures { SessionEntry book.now calls.now answers.old masks.old (word_of result) answers.new masks.new }
{
    check(
        book,
        FULL_LIMITS,
        calls.len(),
        answers.len() / 4,
        masks.len() / 4,
    )?;
    let n = slots(book);
    let m = 2 * (calls.len() / 4);
    let mut words = [0u32; 8192];
    let mut row = [0u32; 256];
    Ok(session_out(book, calls, &mut words[..m], &mut row[..n], answers, masks))
}

// Runs an accepted list on a good book in words and row, which have just the room for them, and writes them out.
fn session_out(
    book: &[u8],
    calls: &[u8],
    words: &mut [u32],
    row: &mut [u32],
    answers: &mut [u8],
    masks: &mut [u8],
) -> Verdict
    requires { SessionOut book.now calls.now words.old row.old answers.old masks.old }
    ensures { SessionRan (bytes_of 4) (session_good book.now (calls_of calls.now)) (word_of (Ok result))
        answers.old masks.old answers.new masks.new }
{
    let verdict = run_exactly(book, calls, words, row);
    write32(words, answers);
    write32(row, masks);
    verdict
}
