// A whole text: it is read and tested, and only then written as a book. It is refused by document 02's numbers: 17 and 18 by record, then 2, then 6 to 8
// by row, then 9. The contracts cite csv_model's `specs/Import.antt` and `specs/Orders.antt`.
ghost use Rattle.std.specs.Prelude.{◌≡◌, length};
ghost use Rattle.std.proofs.lemmas.List.Edits.{sets};
ghost use Rattle.book.specs.Refusal.{beyond, number_of};
ghost use Rattle.book_bytes.specs.BookBytes.{LimitsFit};
ghost use Rattle.csv_model.specs.Import.{book_of, Imports};
ghost use Rattle.csv_import.specs.Orders.{ordered_fault, OrdersSay, OrdersOf, OrdersFit};

use crate::Orders;
use crate::passes::{test_later, write_rows};
use crate::records::read_good;
use answer::Refusal;
use book::Limits;
use book_bytes::{fill_masks, full_mask, write_header};

// The fields of the first record.
const FIELDS: usize = 2;

// Writes the book that text says into the front of out; or answers the refusal that comes first, and writes nothing.
pub fn import_orders(text: &[u8], limits: Limits, out: &mut [u8]) -> Result<(), Refusal>
    requires { LimitsFit limits }
    ensures { Imports limits text.now out.old (number_of result) out.new }
{
    let orders = read_orders(text)?;
    check_orders(orders, limits, out.len())?;
    write_book(text, orders, out);
    Ok(())
}

// What text orders, or the first refusal 17 or 18 of its records.
fn read_orders(text: &[u8]) -> Result<Orders, Refusal>
    ensures { OrdersOf text.now result }
{
    let head = read_good(text, 0, FIELDS)?;
    let row = head.tally.last;
    let later = test_later(text, head.next, row.lower, row.upper)?;
    Ok(Orders {
        slots: row.lower,
        values: row.upper,
        rows: later.rows,
        refused: later.refused,
        from: head.next,
    })
}

// Number 2, 6, 7, 8 or 9 of orders, for an output of len bytes.
fn check_orders(orders: Orders, limits: Limits, len: usize) -> Result<(), Refusal>
    requires { LimitsFit limits }
    ensures { number_of result ≡ ordered_fault limits orders len }
{
    if out_of_range(limits, orders.slots, orders.values, orders.rows) {
        return Err(Refusal::OutOfRange);
    }
    orders.refused?;
    if len < 12 + 4 * orders.slots + 8 * orders.rows {
        return Err(Refusal::OutputTooShort);
    }
    Ok(())
}

// Whether n, k or the number of rows is out of range.
fn out_of_range(limits: Limits, n: usize, k: usize, rows: usize) -> bool
    ensures { result ≡ beyond limits n k rows }
{
    n == 0 || limits.slots < n || k == 0 || limits.values < k || limits.rows < rows
}

// Writes the book of these orders into the front of out.
fn write_book(text: &[u8], orders: Orders, out: &mut [u8])
    requires { OrdersSay text.now orders × OrdersFit text.now (length out.old) }
    ensures { out.new ≡ sets out.old 0 (book_of text.now) }
{
    let n = orders.slots;
    write_header(out, n, orders.values, 0, orders.rows);
    fill_masks(out, n, full_mask(orders.values));
    write_rows(text, orders.from, out, 12 + 4 * n);
}
