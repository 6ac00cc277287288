// The closing of a book's bounds, typed: the loosest closed table within its rows, or dead.
// `close` refuses by the book's numbers 1 to 8, then by 9 where a lent output is too short; every book and every length gets an answer.
// The contracts cite `specs/Close.antt` and `entries` of closing_model's `specs/Start.antt`; that of `close_exactly` cites `specs/Wrote.antt` and
// starting's `specs/Ready.antt`.
#![tactic(auto)]

ghost use Rattle.std.specs.Prelude.{◌≡◌, ◌≤◌, length};
ghost use Rattle.answer.specs.Answer.{word_of};
ghost use Rattle.book.specs.Refusal.{number_of};
ghost use Rattle.closing_model.specs.Start.{entries};
ghost use Rattle.starting.specs.Ready.{Ready};
ghost use Rattle.closing.specs.Close.{Closes, close_fault, close_of, close_good};
ghost use Rattle.closing.specs.Wrote.{Wrote};

use answer::{Refusal, Verdict};
use book::{Limits, slots, values};
use bounds::close_table;
use filling::fill_zeros;
use reader::read;
use starting::start_table;

// Closes the table of book into the fronts of lowers and uppers, value by value.
pub fn close(
    book: &[u8],
    limits: Limits,
    lowers: &mut [u16],
    uppers: &mut [u16],
) -> Result<Verdict, Refusal>
    ensures { Closes (λ xs. xs) (close_of limits book.now (length lowers.old) (length uppers.old)) (word_of result)
        lowers.old uppers.old lowers.new uppers.new }
{
    check(book, limits, lowers.len(), uppers.len())?;
    let m = table_size(book);
    Ok(close_exactly(book, &mut lowers[..m], &mut uppers[..m]))
}

// What refuses book, or outputs of so many elements.
pub fn check(book: &[u8], limits: Limits, lowers: usize, uppers: usize) -> Result<(), Refusal>
    ensures { number_of result ≡ close_fault limits book.now lowers uppers }
{
    read(book, limits)?;
    let m = table_size(book);
    if lowers < m {
        return Err(Refusal::OutputTooShort);
    }
    if uppers < m {
        return Err(Refusal::OutputTooShort);
    }
    Ok(())
}

// k(n+1), how many lowers and how many uppers the table of book has.
pub fn table_size(book: &[u8]) -> usize
    requires { 12 ≤ length book.now }
    ensures { result ≡ entries book.now }
{
    values(book) * (slots(book) + 1)
}

// Closes the table of a good book in two slices that have just the room for it.
pub fn close_exactly(book: &[u8], lowers: &mut [u16], uppers: &mut [u16]) -> Verdict
    requires { Ready book.now lowers.old uppers.old }
    ensures { Wrote (close_good book.now) result lowers.new uppers.new }
{
    start_table(book, lowers, uppers);
    if close_table(lowers, uppers, slots(book), values(book)) {
        return Verdict::Live;
    }
    fill_zeros(lowers);
    fill_zeros(uppers);
    Verdict::Dead
}
