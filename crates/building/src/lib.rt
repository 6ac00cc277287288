// Building the segments of one value and one kind of bound from the bound's rises and the masks, in one cell for each prefix from 0 to n + 1 (the
// crate `segments` says what a cell holds): first a right end at n + 1 whose slack never runs out, then the corners from the last to the first.
// `lower` is the kind: true for the lower bound. A broken corner is answered; nothing is refused here. The contracts cite `specs/Built.antt` and the
// definitions of segments_model.
#![tactic(auto)]

ghost use Rattle.std.specs.Prelude.{◌≡◌, cond, ◌+◌, ◌-◌, ◌<◌, ◌≤◌, length};
ghost use Rattle.segments_model.specs.Build.{Counts};
ghost use Rattle.segments_model.specs.Part.{Lent};
ghost use Rattle.building.specs.Built.{DoneAfter, Built};

use inserting::{blank, insert, point, visit};

// Fills the cells of one value from its rises and the masks. False where a corner is broken.
pub fn build(cells: &mut [u16], rises: &[u32], masks: &[u32], n: usize, v: u32, lower: bool) -> bool
    requires { (n + 1 < length cells.old) × (n < length rises.now) × (n ≤ length masks.now) × (n ≤ 256) × (v < 32) }
    ensures { Built lower n v rises.now masks.now cells.old cells.new result }
{
    blank(cells, n + 1);
    let total = corners::count_all(rises, masks, n, v, lower);
    let risen = total.risen;
    let counted = total.counted;
    let slack = reserve(lower, n, counted);
    let first = insert(cells, n + 1, n + 1, slack, n + 2);
    fill(cells, rises, masks, n, v, lower, risen, counted, first)
}

// The same for the n + 2 cells from `base` on of a longer list, whose other cells stay.
pub fn build_in(
    cells: &mut [u16],
    base: usize,
    rises: &[u32],
    masks: &[u32],
    n: usize,
    v: u32,
    lower: bool,
) -> bool
    requires { (base + n + 1 < length cells.old) × (n < length rises.now) × (n ≤ length masks.now) × (n ≤ 256) × (v < 32) }
    ensures { Lent base (n + 2) (λ a b. Built lower n v rises.now masks.now a b result)
        cells.old cells.new }
{
    let end = base + n + 2;
    build(&mut cells[base..end], rises, masks, n, v, lower)
}

// The slack of the right end at n + 1, from the count at n.
fn reserve(lower: bool, n: usize, counted: u32) -> usize
    requires { (n ≤ 256) × (counted ≤ n) }
    ensures { (result ≡ cond lower (n + 2 + counted) (n + 2 + (n - counted))) × (result < 1024) }
{
    let count = counted as usize;
    if lower {
        return n + 2 + count;
    }
    n + 2 + (n - count)
}

// Takes the corners from the last to the first, with the line and the count at n, into cells that hold the right end at n + 1 alone, at `first`.
fn fill(
    cells: &mut [u16],
    rises: &[u32],
    masks: &[u32],
    n: usize,
    v: u32,
    lower: bool,
    risen: u32,
    counted: u32,
    first: usize,
) -> bool
    requires { (n + 1 < length cells.old) × (n < length rises.now) × (n ≤ length masks.now) × (n ≤ 256) × (v < 32)
        × Counts lower rises.now masks.now v n risen counted × DoneAfter lower n rises.now masks.now v n cells.old first }
    ensures { Built lower n v rises.now masks.now cells.old cells.new result }
{
    let mut r = risen;
    let mut k = counted;
    let mut next = first;
    let mut t = n;
    // a `while`: t goes from corner to corner, by no fixed step
    while 0 < t {
        let corner = corners::corner_at(rises, n, v, lower, t);
        let gained = choose(lower, k, r);
        let lost = choose(lower, r, k);
        let Some(end) = visit(cells, n + 1, t, corner, gained, lost, next) else {
            return false;
        };
        next = end;
        let s = corners::previous_corner(rises, n, v, lower, t);
        let before = corners::count_back(rises, masks, v, lower, s, t, r, k);
        r = before.risen;
        k = before.counted;
        t = s;
    }
    point(cells, 1, next);
    true
}

// The one of x and y that b says.
fn choose(b: bool, x: u32, y: u32) -> usize
    ensures { result ≡ cond b x y }
{
    if b {
        return x as usize;
    }
    y as usize
}
