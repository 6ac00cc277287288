// The reader of order books: whether a lent slice of bytes is a good book.
// It refuses by the numbers 1 to 8, each a case of `Refusal`; every slice of every length gets an answer.
// What each function requires is what the ones before it have shown. The contracts cite book's `specs/Refusal.antt` and `specs/Layout.antt`.
#![tactic(auto)]

ghost use Rattle.std.specs.Prelude.{◌≡◌, ◌+◌, ◌*◌, ◌≤◌, length};
ghost use Rattle.book.specs.Layout.{mask_at, row_at};
ghost use Rattle.book.specs.Refusal.{refusal, first_of, mask_fault, row_fault, number_of};

use answer::Refusal;
use book::{Limits, mask_at, row_at, row_count, rows, slots, values};
use book_header::check_header;
use book_items::{check_row, mask_fits};

// The first refusal that applies to book, or none.
pub fn read(book: &[u8], limits: Limits) -> Result<(), Refusal>
    ensures { number_of result ≡ refusal limits book.now }
{
    check_header(book, limits)?;
    let n = slots(book);
    let k = values(book);
    check_masks(book, n, k)?;
    check_rows(rows(book), row_count(book), n, k)
}

// Number 5, by slot, for n slots and k values.
fn check_masks(book: &[u8], n: usize, k: usize) -> Result<(), Refusal>
    requires { 12 + 4 * n ≤ length book.now }
    ensures { number_of result ≡ first_of n (λ s. mask_fault k (mask_at book.now s)) }
{
    for s in 0..n {
        if !mask_fits(mask_at(book, s), k) {
            return Err(Refusal::Mask);
        }
    }
    Ok(())
}

// Numbers 6 to 8, by row, for the first count rows of a part that begins with them.
fn check_rows(rows: &[u8], count: usize, n: usize, k: usize) -> Result<(), Refusal>
    requires { 8 * count ≤ length rows.now }
    ensures { number_of result ≡ first_of count (λ i. row_fault n k (row_at rows.now i)) }
{
    for i in 0..count {
        check_row(row_at(rows, i), n, k)?;
    }
    Ok(())
}
