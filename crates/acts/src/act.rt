// What each call but a decision does that no number refuses. The contracts say that it is what the plain machine does: `Acts` of `specs/Answers.antt`.
ghost use Rattle.std.specs.Prelude.{◌≡◌, List, ℕ, ◌+◌, ◌*◌, ◌≤◌, ◌<◌, length, get_or};
ghost use Rattle.filter_model.specs.Mirror.{row};
ghost use Rattle.session_model.specs.Calls as Calls;
ghost use Rattle.acts.specs.Answers.{Acts, Marking, Backing, Counting};

use crate::flags::is_shut;
use crate::{Session, Standing, Stepped};
use standing::standing_in;
use undoing::undo;

// A mark: the trail's height is noted.
pub fn mark(heights: &mut [u16], session: Session) -> Stepped
    requires { Marking heights.old session }
    ensures { (masks cells trail : List ℕ) (n k i : ℕ) → Acts n k i Calls.mark session
        masks cells trail heights.old masks cells trail heights.new result }
{
    let marks = session.marks;
    heights[marks] = session.top as u16;
    let marked = Session {
        standing: Standing::Live,
        marks: marks + 1,
        ..session
    };
    Stepped {
        session: marked,
        first: 3,
        second: 0,
    }
}

// A back: what was struck since the latest open mark is taken back.
pub fn back(
    masks: &mut [u32],
    cells: &mut [u16],
    trail: &[u8],
    heights: &[u16],
    n: usize,
    k: u32,
    session: Session,
) -> Stepped
    requires { Backing masks.old cells.old trail.now heights.now n k session }
    ensures { (i : ℕ) → Acts n k i Calls.back session
        masks.old cells.old trail.now heights.now
        masks.new cells.new trail.now heights.now result }
{
    let top = session.top;
    let marks = session.marks - 1;
    let from = height(heights, marks);
    undo(masks, cells, trail, n, k, from, top);
    let live = Session {
        standing: Standing::Live, // dead becomes live
        top: from,
        marks,
        ..session
    };
    Stepped {
        session: live,
        first: 3,
        second: 0,
    }
}

// A show: the slot's mask.
pub fn show(masks: &[u32], session: Session, slot: usize) -> Stepped
    requires { slot < length masks.now }
    ensures { (cells trail heights : List ℕ) (n k i : ℕ) → Acts n k i (Calls.show slot) session
        masks.now cells trail heights masks.now cells trail heights result }
{
    Stepped {
        session,
        first: 2,
        second: masks[slot],
    }
}

// A count of walls, of the lower or the upper bound of v; after a dead opening there are none.
pub fn walls(cells: &[u16], n: usize, k: u32, session: Session, lower: bool, v: u32) -> Stepped
    requires { Counting cells.now n k v }
    ensures { (masks trail heights : List ℕ) (i : ℕ) → Acts n k i (Calls.walls lower v) session
        masks cells.now trail heights masks cells.now trail heights result }
{
    let standing = session.standing;
    if is_shut(standing) {
        return Stepped {
            session,
            first: 2,
            second: 0,
        };
    }
    let start = row_start(n, k, lower, v);
    let count = standing_in(cells, start, n);
    Stepped {
        session,
        first: 2,
        second: count as u32,
    }
}

// Where the cells of a bound of v start.
fn row_start(n: usize, k: u32, lower: bool, v: u32) -> usize
    requires { (n ≤ 256) × (k ≤ 32) × (v < k) }
    ensures { result ≡ row lower k v * (n + 2) }
{
    if lower {
        return v as usize * (n + 2);
    }
    (k + v) as usize * (n + 2)
}

fn height(heights: &[u16], at: usize) -> usize
    requires { at < length heights.now }
    ensures { result ≡ get_or heights.now at 0 }
{
    heights[at] as usize
}
