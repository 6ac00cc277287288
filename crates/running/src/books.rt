// From a good book to a session, and the run of a list of calls from there. Nothing is refused here. The contracts cite running_model's `specs/BookRan.antt`.
ghost use Rattle.std.specs.Prelude.{length};
ghost use Rattle.running_model.specs.BookRan.{Openable, Opens, BookRunnable, BookRan};

use crate::runs::run;
use acts::{Session, Standing, is_shut};
use book::{idle, slots, values};
use book_masks::clear_masks;
use book_opening::open_book;
use outcomes::Outcome;
use running_model::Ended;

// Opens a good book and runs a list of calls from there, with two words for each.
pub fn run_book(
    book: &[u8],
    calls: &[u8],
    answers: &mut [u32],
    masks: &mut [u32],
    cells: &mut [u16],
    trail: &mut [u8],
    heights: &mut [u16],
    lowers: &mut [u32],
    uppers: &mut [u32],
) -> Ended
    requires { BookRunnable book.now calls.now answers.old masks.old cells.old trail.old lowers.old uppers.old }
    ensures { BookRan book.now calls.now (length heights.old) answers.old answers.new
        masks.new cells.new trail.new heights.new result }
{
    let fresh = open_session(book, masks, cells, trail, lowers, uppers);
    let standing = fresh.standing;
    let live = !is_shut(standing);
    let n = slots(book);
    let k = values(book) as u32;
    let session = run(calls, answers, masks, cells, trail, heights, n, k, fresh, 0);
    Ended { session, live }
}

// Opens a good book: live with the settled masks, or dead with masks that have no value.
pub fn open_session(
    book: &[u8],
    masks: &mut [u32],
    cells: &mut [u16],
    trail: &mut [u8],
    lowers: &mut [u32],
    uppers: &mut [u32],
) -> Session
    requires { Openable book.now masks.old cells.old trail.old lowers.old uppers.old }
    ensures { Opens book.now masks.new cells.new trail.new result }
{
    let idle = idle(book);
    let outcome = open_book(book, masks, cells, trail, lowers, uppers);
    match outcome {
        Outcome::Live(h) => {
            Session {
                standing: Standing::Live,
                top: h,
                marks: 0,
                idle,
            }
        }
        Outcome::Dead(_) => {
            clear_masks(masks);
            Session {
                standing: Standing::OpenedDead,
                top: 0,
                marks: 0,
                idle,
            }
        }
    }
}
