// The entries at the limits of 256 slots, 32 types and 1024 rows, typed, for callers written in Rattle. No entry has a premise: every slice of every
// length gets an answer. The contracts cite the definitions of the entries with limits, at entries_model's `full_limits`.
#![tactic(auto)]

ghost use Rattle.std.specs.Prelude.{◌≡◌, length};
ghost use Rattle.answer.specs.Answer.{word_of};
ghost use Rattle.book.specs.Refusal.{refusal, number_of};
ghost use Rattle.closing.specs.Close.{Closes, close_of};
ghost use Rattle.settle_fault.specs.Settle.{Settles, settle_of};
ghost use Rattle.session_fault.specs.Entry.{SessionRan, session_of};
ghost use Rattle.entries_model.specs.Entries.{full_limits, ImportEntry, ProbeEntry, CanonicalEntry};

use answer::{Refusal, Verdict};
use entries_model::FULL_LIMITS;

// Whether book is a good book, or why not.
pub fn check(book: &[u8]) -> Result<(), Refusal>
    ensures { number_of result ≡ refusal full_limits book.now }
{
    reader::read(book, FULL_LIMITS)
}

// Closes the table of book into the fronts of lowers and uppers, value by value.
pub fn close(book: &[u8], lowers: &mut [u16], uppers: &mut [u16]) -> Result<Verdict, Refusal>
    ensures { Closes (λ xs. xs) (close_of full_limits book.now (length lowers.old) (length uppers.old)) (word_of result)
        lowers.old uppers.old lowers.new uppers.new }
{
    closing::close(book, FULL_LIMITS, lowers, uppers)
}

// Settles the masks of book into the front of masks.
pub fn settle(book: &[u8], masks: &mut [u32]) -> Result<Verdict, Refusal>
    ensures { Settles (λ xs. xs) (settle_of full_limits book.now (length masks.old)) (word_of result) masks.old masks.new }
{
    settling::settle(book, FULL_LIMITS, masks)
}

// Runs the call list on a session of book: two words a call into the front of answers, the last masks into the front of masks.
pub fn session(
    book: &[u8],
    calls: &[u8],
    answers: &mut [u32],
    masks: &mut [u32],
) -> Result<Verdict, Refusal>
    ensures { SessionRan (λ xs. xs)
        (session_of full_limits book.now calls.now (length answers.old) (length masks.old)) (word_of result)
        answers.old masks.old answers.new masks.new }
{
    session::run_session(book, FULL_LIMITS, calls, answers, masks)
}

// Imports orders from CSV text: writes the book that text says into the front of book. Never answers dead.
pub fn import_csv(text: &[u8], book: &mut [u8]) -> Result<Verdict, Refusal>
    ensures { ImportEntry text.now book.old (word_of result) book.new }
{
    csv_import::import_csv(text, book)
}

// Writes a byte for each assign call of the list into the front of dead: 1 where that assignment alone, on the opened book, is answered dead.
pub fn probe(book: &[u8], calls: &[u8], dead: &mut [u8]) -> Result<Verdict, Refusal>
    ensures { ProbeEntry book.now calls.now dead.old (word_of result) dead.new }
{
    probe::probe(book, FULL_LIMITS, calls, dead)
}

// Writes the canonical book of book, a row for each corner of its closed table, into the front of out. Live and dead are those of closing alone.
pub fn canonical(book: &[u8], out: &mut [u8]) -> Result<Verdict, Refusal>
    ensures { CanonicalEntry book.now out.old (word_of result) out.new }
{
    canonical::canonical(book, out)
}
