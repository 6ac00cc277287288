// Everything before a corner without slack settled, for a value and a kind of bound: what an opening asks of the filter. Nothing is refused here. The
// contract cites filter's `specs/Filtered.antt`.
#![tactic(auto)]

ghost use Rattle.settling_model.specs.Settled.{Settled};
ghost use Rattle.filter_model.specs.Cuts.{BoundCut};
ghost use Rattle.filter_model.specs.State.{Pruning};
ghost use Rattle.filter.specs.Filtered.{Filtered};

use filter::{fix_free, strike_free};
use outcomes::{Outcome, told};

// Where the lower (`lower`), or the upper, bound of v is met at `end`: settles each slot before it.
pub fn prune(
    masks: &mut [u32],
    cells: &mut [u16],
    trail: &mut [u8],
    n: usize,
    k: u32,
    top: usize,
    v: u32,
    end: usize,
    lower: bool,
) -> Outcome
    requires { Pruning masks.old cells.old trail.old n k top v end }
    ensures { Filtered n k (BoundCut lower masks.old v end) (λ M. Settled M v end)
        masks.old cells.old trail.old top masks.new cells.new trail.new result }
{
    if lower {
        return told(fix_free(masks, cells, trail, n, k, top, v, 0, end));
    }
    told(strike_free(masks, cells, trail, n, k, top, v, 0, end))
}
