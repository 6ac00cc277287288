// The tests of a book's header: what the numbers 1 to 4 refuse, in this order.
// The contracts cite book's `specs/Refusal.antt`.
#![tactic(auto)]

ghost use Rattle.std.specs.Prelude.{◌≡◌, ◌≤◌, length};
ghost use Rattle.book.specs.Refusal.{out_of_range, misplaced, header_fault, number_of};

use answer::Refusal;
use book::{Limits, idle, read16, row_count, slots, values};

// Numbers 1 to 4.
pub fn check_header(book: &[u8], limits: Limits) -> Result<(), Refusal>
    ensures { number_of result ≡ header_fault limits book.now }
{
    if book.len() < 12 {
        return Err(Refusal::TooShort);
    }
    if out_of_range(book, limits) {
        return Err(Refusal::OutOfRange);
    }
    if values(book) < idle(book) {
        return Err(Refusal::IdleType);
    }
    if misplaced(book) {
        return Err(Refusal::Layout);
    }
    Ok(())
}

// Whether n, k or r is out of range.
fn out_of_range(book: &[u8], limits: Limits) -> bool
    requires { 12 ≤ length book.now }
    ensures { result ≡ out_of_range limits book.now }
{
    let n = slots(book);
    let k = values(book);
    if n == 0 || limits.slots < n {
        return true;
    }
    if k == 0 || limits.values < k {
        return true;
    }
    limits.rows < row_count(book)
}

// Whether an offset or length differs from the one that n and r give, or the lent length does.
fn misplaced(book: &[u8]) -> bool
    requires { 12 ≤ length book.now }
    ensures { result ≡ misplaced book.now }
{
    let rows_at = 12 + 4 * slots(book);
    let end = rows_at + 8 * row_count(book);
    if read16(book, 6) != 12 {
        return true;
    }
    if read16(book, 8) != rows_at {
        return true;
    }
    if read16(book, 10) != end {
        return true;
    }
    book.len() != end
}
