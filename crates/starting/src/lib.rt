// The starting table of a book (document 01, 'Closing'), in two lent slices. The rows are read from the part of the book that begins with them.
// The contracts cite `specs/Ready.antt` and closing_model's `specs/Start.antt`.
#![tactic(auto)]

ghost use Rattle.std.specs.Prelude.{◌≡◌};
ghost use Rattle.book.specs.Layout as Layout;
ghost use Rattle.closing_model.specs.Start.{start_lowers, start_uppers};
ghost use Rattle.starting.specs.Ready.{Ready};

use book::{row_at, row_count, rows, slots};
use filling::{fill_prefixes, fill_zeros};
use stores::{lower_to, raise};

// Writes the starting table of book.
pub fn start_table(book: &[u8], lowers: &mut [u16], uppers: &mut [u16])
    requires { Ready book.now lowers.old uppers.old }
    ensures lowers_after { lowers.new ≡ start_lowers (Layout.slots book.now) (Layout.values book.now) (Layout.rows book.now) }
    ensures uppers_after { uppers.new ≡ start_uppers (Layout.slots book.now) (Layout.values book.now) (Layout.rows book.now) }
{
    let n = slots(book);
    fill_zeros(lowers);
    fill_prefixes(uppers, n);
    let part = rows(book);
    for i in 0..row_count(book) {
        let row = row_at(part, i);
        let p = row.value * (n + 1) + row.end;
        raise(lowers, p, row.lower);
        lower_to(uppers, p, row.upper);
    }
}
