// Orders that arrive as CSV (document 02, request one): a text in, a good book out. Every text of every length gets an answer, and the lent book is
// written only where no number refuses the text. The contracts cite csv_model's `specs/`, and the entry's entries_model's `specs/Entries.antt`.
#![tactic(auto)]

mod fields; // fields.rt: one field
mod importing; // importing.rt: a whole text
mod passes; // passes.rt: the later records
mod records; // records.rt: one record

ghost use Rattle.answer.specs.Answer.{word_of};
ghost use Rattle.entries_model.specs.Entries.{ImportEntry};

use answer::{Refusal, Verdict};
use book::Row;
use csv_model::Figure;
use entries_model::FULL_LIMITS;

// The most digits of a number.
const DIGITS_MOST: usize = 5;

// A field that was found: its figure, whether it is the last of its record, and the place behind it.
#[derive(Clone, Copy)]
pub struct Part {
    pub figure: Figure,
    pub last: bool,
    pub next: usize,
}

// The fields of a record so far.
#[derive(Clone, Copy)]
pub struct Tally {
    pub count: usize,
    // one of them is no number, at its place: a flag, since `added` and `tallied` of specs/Read.antt read it beside the row
    pub bad: bool,
    // the last four numbers, as a row
    pub last: Row,
}

// A record that was read: its fields, and the place behind it.
#[derive(Clone, Copy)]
pub struct Read {
    pub tally: Tally,
    pub next: usize,
}

// What the later records say: how many they are, and what the tests of their rows say.
#[derive(Clone, Copy)]
pub struct Later {
    pub rows: usize,
    pub refused: Result<(), Refusal>,
}

// What a text orders: its numbers, what the tests of its rows say, and the place of the first row.
#[derive(Clone, Copy)]
pub struct Orders {
    pub slots: usize,
    pub values: usize,
    pub rows: usize,
    pub refused: Result<(), Refusal>,
    pub from: usize,
}

// Writes the book that text says into the front of book; live where no number refuses the text, and never dead.
pub fn import_csv(text: &[u8], book: &mut [u8]) -> Result<Verdict, Refusal>
    ensures { ImportEntry text.now book.old (word_of result) book.new }
{
    importing::import_orders(text, FULL_LIMITS, book)?;
    Ok(Verdict::Live)
}
