// Closing from bytes to bytes, at the limits of every entry. The contracts cite entries_model's `specs/Entries.antt`.
#![tactic(auto)]

ghost use Rattle.answer.specs.Answer.{word_of};
ghost use Rattle.entries_model.specs.Entries.{CloseEntry};

use answer::{Refusal, Verdict, word};
use closing::{check, close_exactly, table_size};
use elements::write16;
use entries_model::FULL_LIMITS;

// Closes the table of book into the fronts of lowers and uppers.
pub fn close(book: &[u8], lowers: &mut [u8], uppers: &mut [u8]) -> u32
    ensures { CloseEntry book.now lowers.old uppers.old result lowers.new uppers.new }
{
    word(close_into(book, lowers, uppers))
}

// The same, before the answer is a word. The table is closed in two arrays of 32 · 257 entries (a number, as
// tools/closing_arrays.py looks for it), and written out.
fn close_into(book: &[u8], lowers: &mut [u8], uppers: &mut [u8]) -> Result<Verdict, Refusal>
    ensures { CloseEntry book.now lowers.old uppers.old (word_of result) lowers.new uppers.new }
{
    check(book, FULL_LIMITS, lowers.len() / 2, uppers.len() / 2)?;
    let m = table_size(book);
    let mut lower_table = [0u16; 8224];
    let mut upper_table = [0u16; 8224];
    let verdict = close_exactly(book, &mut lower_table[..m], &mut upper_table[..m]);
    write16(&lower_table[..m], lowers);
    write16(&upper_table[..m], uppers);
    Ok(verdict)
}
