// The rises of a book's closed table. The table itself stands only in arrays of these functions.
// The contracts cite `specs/BookRises.antt`.
#![tactic(auto)]

ghost use Rattle.book_rises.specs.BookRises.{NotesRises, RisesRoom, TableRoom};

use answer::Verdict;
use book::{slots, values};
use closing::{close_exactly, table_size};
use rises::write_rises;

// Whether a good book closes, a bool as `NotesRises` reads it; if so, the fronts of the two slices hold the rises of its lowers and uppers. The tables
// have 32 · 257 entries, a number and no name, as tools/closing_arrays.py looks for it.
pub fn closed_rises(book: &[u8], lower_rises: &mut [u32], upper_rises: &mut [u32]) -> bool
    requires { RisesRoom book.now lower_rises.old upper_rises.old }
    ensures { NotesRises book.now lower_rises.old upper_rises.old
        lower_rises.new upper_rises.new result }
{
    let mut lowers = [0u16; 8224];
    let mut uppers = [0u16; 8224];
    let m = table_size(book);
    note_rises(
        book,
        &mut lowers[..m],
        &mut uppers[..m],
        lower_rises,
        upper_rises,
    )
}

// The same with a table that has just the room for the book's.
fn note_rises(
    book: &[u8],
    lowers: &mut [u16],
    uppers: &mut [u16],
    lower_rises: &mut [u32],
    upper_rises: &mut [u32],
) -> bool
    requires { TableRoom book.now lowers.old uppers.old lower_rises.old upper_rises.old }
    ensures { NotesRises book.now lower_rises.old upper_rises.old
        lower_rises.new upper_rises.new result }
{
    match close_exactly(book, lowers, uppers) {
        Verdict::Dead => false,
        Verdict::Live => {
            let n = slots(book);
            let k = values(book);
            write_rises(lowers, n, k, lower_rises);
            write_rises(uppers, n, k, upper_rises);
            true
        }
    }
}
