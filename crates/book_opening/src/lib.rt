// From a good book to the filter's state. Nothing is refused here. The contract cites `specs/State.antt`.
#![tactic(auto)]

ghost use Rattle.book_opening.specs.State.{StateRoom, OpensBook};

use book::{slots, values};
use book_masks::load_masks;
use book_rises::closed_rises;
use opening::open;
use outcomes::Outcome;

// The masks of 256 slots.
pub const MASKS: usize = 256;

// The cells of 256 slots and 32 values: 64 rows of 258, and 16 words of open slots.
pub const CELLS: usize = 16528;

// The bytes of a trail of 256 slots and 32 values.
pub const TRAIL: usize = 25088;

// The prefixes of 256 slots, 0 to 256.
pub const PREFIXES: usize = 257;

// Opens a good book: Live with the settled masks, the cells and the rises, or Dead where it does not settle.
pub fn open_book(
    book: &[u8],
    masks: &mut [u32],
    cells: &mut [u16],
    trail: &mut [u8],
    lower_rises: &mut [u32],
    upper_rises: &mut [u32],
) -> Outcome
    requires { StateRoom book.now masks.old cells.old trail.old lower_rises.old upper_rises.old }
    ensures { OpensBook book.now masks.new cells.new trail.new
        lower_rises.new upper_rises.new result }
{
    if !closed_rises(book, lower_rises, upper_rises) {
        return Outcome::Dead(0);
    }
    load_masks(book, masks);
    let n = slots(book);
    let k = values(book) as u32;
    open(masks, cells, trail, lower_rises, upper_rises, n, k)
}
