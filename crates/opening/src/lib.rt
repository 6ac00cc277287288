// Opening: builds the cells from a table's rises and the masks, and settles everything before each row's spent corner, so that the masks are
// stable; or finds that no stable list is left. Nothing is refused here. The contracts cite `specs/Opened.antt` and the definitions of filter and
// filter_model.
#![tactic(auto)]

ghost use Rattle.std.specs.Prelude.{◌<◌};
ghost use Rattle.filter.specs.Filtered.{Filtered};
ghost use Rattle.opening.specs.Opened.{Anything, Opening, QuietValue, QuietBelow, Rooms, OpenAnswer};

use mirroring::build_all;

// Opens: builds all cells from the rises of the lower and of the upper bounds, and settles all rows.
pub fn open(
    masks: &mut [u32],
    cells: &mut [u16],
    trail: &mut [u8],
    lowers: &[u32],
    uppers: &[u32],
    n: usize,
    k: u32,
) -> outcomes::Outcome
    requires { Rooms masks.old cells.old trail.old lowers.now uppers.now n k }
    ensures { OpenAnswer n k lowers.now uppers.now masks.old cells.old trail.old
        masks.new cells.new trail.new result }
{
    if !build_all(cells, lowers, uppers, masks, n, k) {
        return outcomes::Outcome::Dead(0);
    }
    prune_all(masks, cells, trail, n, k, 0)
}

// Settles all rows.
fn prune_all(
    masks: &mut [u32],
    cells: &mut [u16],
    trail: &mut [u8],
    n: usize,
    k: u32,
    top: usize,
) -> outcomes::Outcome
    requires { Opening masks.old cells.old trail.old n k top }
    ensures { Filtered n k Anything (QuietBelow n k masks.old cells.old k)
        masks.old cells.old trail.old top masks.new cells.new trail.new result }
{
    let mut h = top;
    for v in 0..k {
        let o = prune_value(masks, cells, trail, n, k, h, v);
        match o {
            outcomes::Outcome::Live(x) => {
                h = x;
            }
            outcomes::Outcome::Dead(x) => {
                return outcomes::Outcome::Dead(x);
            }
        }
    }
    outcomes::Outcome::Live(h)
}

// Settles everything before the spent corners of value v's rows.
fn prune_value(
    masks: &mut [u32],
    cells: &mut [u16],
    trail: &mut [u8],
    n: usize,
    k: u32,
    top: usize,
    v: u32,
) -> outcomes::Outcome
    requires { Opening masks.old cells.old trail.old n k top × (v < k) }
    ensures { Filtered n k Anything (QuietValue n k masks.old cells.old v)
        masks.old cells.old trail.old top masks.new cells.new trail.new result }
{
    let a = descents::spent(cells, v, n);
    let p = pruning::prune(masks, cells, trail, n, k, top, v, a, true);
    match p {
        outcomes::Outcome::Live(h) => {
            let b = descents::spent(cells, k + v, n);
            return pruning::prune(masks, cells, trail, n, k, h, v, b, false);
        }
        outcomes::Outcome::Dead(x) => {
            return outcomes::Outcome::Dead(x);
        }
    }
}
