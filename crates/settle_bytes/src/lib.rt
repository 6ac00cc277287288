// Settling from bytes to bytes, at the limits of every entry. The contracts cite entries_model's `specs/Entries.antt` and settle_fault's `specs/Settle.antt`.
#![tactic(auto)]

ghost use Rattle.std.specs.Prelude.{◌*◌, ◌≤◌, length, Ok};
ghost use Rattle.answer.specs.Answer.{word_of};
ghost use Rattle.elements.specs.Elements.{bytes_of};
ghost use Rattle.settle_fault.specs.Settle.{Settles, settle_good};
ghost use Rattle.settle_fault.specs.Ready.{Ready};
ghost use Rattle.entries_model.specs.Entries.{SettleEntry};

use answer::{Refusal, Verdict, word};
use book::slots;
use elements::write32;
use entries_model::FULL_LIMITS;
use settle_fault::check;
use settling::settle_exactly;

// Settles the masks of book into the front of masks.
pub fn settle(book: &[u8], masks: &mut [u8]) -> u32
    ensures { SettleEntry book.now masks.old result masks.new }
{
    word(settle_into(book, masks))
}

// The same, before the answer is a word. The masks are settled in an array of 256.
fn settle_into(book: &[u8], masks: &mut [u8]) -> Result<Verdict, Refusal>
    ensures { SettleEntry book.now masks.old (word_of result) masks.new }
{
    check(book, FULL_LIMITS, masks.len() / 4)?;
    let n = slots(book);
    let mut words = [0u32; 256];
    Ok(settle_out(book, &mut words[..n], masks))
}

// Settles the masks of a good book in words, which has just the room for them, and writes them into the front of masks.
fn settle_out(book: &[u8], words: &mut [u32], masks: &mut [u8]) -> Verdict
    requires { Ready book.now words.old × (4 * length words.old ≤ length masks.old) }
    ensures { Settles (bytes_of 4) (settle_good book.now) (word_of (Ok result)) masks.old masks.new }
{
    let verdict = settle_exactly(book, words);
    write32(words, masks);
    verdict
}
