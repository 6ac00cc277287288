// The rules across the values at every prefix: at eight prefixes at once where their sums fit, else at one after the other. Nothing is refused here.
// The contracts cite column_rules' specs/Answer.antt, and `Columns` of closing_model's specs/Sweep.antt.
#![tactic(auto)]

ghost use Rattle.std.specs.Prelude.{◌+◌, ◌≤◌};
ghost use Rattle.closing_model.specs.Table.{size};
ghost use Rattle.closing_model.specs.Sweep.{Columns};
ghost use Rattle.column_rules.specs.Answer.{Outcome, Fits, Between};

use bands::{Unfit, band};
use column_rules::{Crossed, each_column};

// The same at all of them at once where there are eight of them and their sums fit.
fn some_columns(
    lowers: &mut [u16],
    uppers: &mut [u16],
    n: usize,
    k: usize,
    from: usize,
    end: usize,
) -> Result<bool, Crossed>
    requires { Fits n k lowers.old uppers.old × (from ≤ end) × (end ≤ n + 1) }
    ensures { Outcome (size n k) (Between n k from end) lowers.old uppers.old lowers.new uppers.new result }
{
    if from + 8 != end {
        return each_column(lowers, uppers, n, k, from, end);
    }
    match band(lowers, uppers, n, k, from) {
        Ok(changed) => Ok(changed),
        Err(Unfit) => each_column(lowers, uppers, n, k, from, end),
    }
}

// The rules across the values, at every prefix, eight at a time, and whether they stored something.
pub fn columns(lowers: &mut [u16], uppers: &mut [u16], n: usize, k: usize) -> Result<bool, Crossed>
    requires { Fits n k lowers.old uppers.old }
    ensures { Outcome (size n k) (Columns n k (n + 1)) lowers.old uppers.old lowers.new uppers.new result }
{
    let mut changed = false;
    for t in (0..n + 1).step_by(8) {
        let end = (t + 8).min(n + 1);
        changed |= some_columns(lowers, uppers, n, k, t, end)?;
    }
    Ok(changed)
}
