// The rules across the values at one prefix, and at some prefixes one after the other, by sums over the values that are held in scalars. Nothing is refused
// here.
// The contracts cite specs/Answer.antt, and `SumsAre` and `Across` of closing_model's specs/Sweep.antt.
#![tactic(auto)]

ghost use Rattle.std.specs.Prelude.{◌+◌, ◌≤◌};
ghost use Rattle.closing_model.specs.Table.{view, size};
ghost use Rattle.closing_model.specs.Sweep.{SumsAre, Across};
ghost use Rattle.column_rules.specs.Answer.{SumsMatch, Outcome, Fits, Between};

use stores::{at, narrow};

// That no closed table lies within.
#[derive(Clone, Copy, PartialEq, Eq, Debug)]
pub struct Crossed;

// What the entries at one prefix come to: the sum of the lowers, that of the uppers, and the widest gap from a lower to its upper.
#[derive(Clone, Copy)]
pub struct Sums {
    lowers: usize,
    uppers: usize,
    gap: usize,
}

// The sums and the widest gap at prefix t.
fn column_sums(lowers: &[u16], uppers: &[u16], n: usize, k: usize, t: usize) -> Sums
    requires { Fits n k lowers.now uppers.now × (t ≤ n) }
    ensures { SumsMatch n k t (view lowers.now uppers.now) result }
{
    let mut sl = 0;
    let mut su = 0;
    let mut gap: usize = 0;
    for v in 0..k {
        let p = v * (n + 1) + t;
        let a = at(lowers, p);
        let b = at(uppers, p);
        sl += a;
        su += b;
        gap = gap.max(b.saturating_sub(a));
    }
    Sums {
        lowers: sl,
        uppers: su,
        gap,
    }
}

// The rules across the values at prefix t, with the sums as they stand at the start: after a store they ask less than the rules do, and
// the next sweep asks the rest. Whether it stored something; Crossed where the other values' lowers alone sum up to more than t.
fn narrow_column(
    lowers: &mut [u16],
    uppers: &mut [u16],
    n: usize,
    k: usize,
    t: usize,
    su: usize,
    sl: usize,
) -> Result<bool, Crossed>
    requires { Fits n k lowers.old uppers.old × (t ≤ n) × SumsAre n k t su sl (view lowers.old uppers.old) }
    ensures { Outcome (size n k) (Across n k t) lowers.old uppers.old lowers.new uppers.new result }
{
    let mut changed = false;
    for v in 0..k {
        let p = v * (n + 1) + t;
        let a = at(lowers, p);
        let b = at(uppers, p);
        let ol = sl.saturating_sub(a);
        if t < ol {
            return Err(Crossed);
        }
        let lower = t.saturating_sub(su.saturating_sub(b));
        changed |= narrow(lowers, uppers, p, lower, t - ol);
    }
    Ok(changed)
}

// The rules across the values at prefix t, and whether they stored something. Where no gap is wider than what either sum leaves, they ask nothing.
fn column(
    lowers: &mut [u16],
    uppers: &mut [u16],
    n: usize,
    k: usize,
    t: usize,
) -> Result<bool, Crossed>
    requires { Fits n k lowers.old uppers.old × (t ≤ n) }
    ensures { Outcome (size n k) (Across n k t) lowers.old uppers.old lowers.new uppers.new result }
{
    let sums = column_sums(lowers, uppers, n, k, t);
    if sums.gap + t <= sums.uppers && sums.gap + sums.lowers <= t {
        return Ok(false);
    }
    narrow_column(lowers, uppers, n, k, t, sums.uppers, sums.lowers)
}

// The rules across the values at each prefix from `from` on and below `end`, one after the other, and whether they stored something.
pub fn each_column(
    lowers: &mut [u16],
    uppers: &mut [u16],
    n: usize,
    k: usize,
    from: usize,
    end: usize,
) -> Result<bool, Crossed>
    requires { Fits n k lowers.old uppers.old × (from ≤ end) × (end ≤ n + 1) }
    ensures { Outcome (size n k) (Between n k from end) lowers.old uppers.old lowers.new uppers.new result }
{
    let mut changed = false;
    for t in from..end {
        changed |= column(lowers, uppers, n, k, t)?;
    }
    Ok(changed)
}
