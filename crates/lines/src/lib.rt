// The rules along one value's line: between a prefix and the next, forward and back.
// The contracts cite `raised`, `Did`, `Passed`, `Fwds`, `Bwds` and `Line` of closing_model's specs/Sweep.antt.
#![tactic(auto)]

ghost use Rattle.std.specs.Prelude.{◌≡◌, ◌+◌, ◌-◌, ◌<◌, length, get_or};
ghost use Rattle.closing_model.specs.Sweep.{raised, Did, Passed, Fwds, Bwds, Line};

use line_tests::keeps;
use stores::{at, lower_to, raise};

// One value's line, from its start to its end, with the bounds at t in a and b.
fn forward_pass(lowers: &mut [u16], uppers: &mut [u16], base: usize, n: usize)
    requires { (base + n < length lowers.old) × (base + n < length uppers.old) }
    ensures { Passed (base + n + 1) (Fwds base n) lowers.old uppers.old lowers.new uppers.new }
{
    let mut a = at(lowers, base);
    let mut b = at(uppers, base);
    for t in 0..n {
        a = raise(lowers, base + t + 1, a);
        b = lower_to(uppers, base + t + 1, b + 1);
    }
}

// One value's line, from its end to its start, with the upper at t in b, and in a the lower there and d, the distance to the end, together.
fn backward_pass(lowers: &mut [u16], uppers: &mut [u16], base: usize, n: usize)
    requires { (base + n < length lowers.old) × (base + n < length uppers.old) }
    ensures { Passed (base + n + 1) (Bwds base 0 n) lowers.old uppers.old lowers.new uppers.new }
{
    let last = base + n;
    let mut a = at(lowers, last);
    let mut b = at(uppers, last);
    let mut d = 0;
    for t in (0..n).rev() {
        d += 1;
        a = raise_less(lowers, base + t, a, d);
        b = lower_to(uppers, base + t, b);
    }
}

// Raises the entry at p to x less d where it is below, and returns the entry and d together: of use where d grows from call to call, since the next
// number waits for one comparison alone. It stores without a branch.
fn raise_less(s: &mut [u16], p: usize, x: usize, d: usize) -> usize
    requires { (p < length s.old) × (d < length s.old) × (x < 65536 + d) }
    ensures { (s.new ≡ raised s.old p (x - d)) × (result ≡ get_or s.new p 0 + d) × (result < 65536 + d) }
{
    let y = (at(s, p) + d).max(x);
    s[p] = (y - d) as u16;
    y
}

// One value's line, both ways, and whether it changed. Where the line keeps its rules no pass is made; where it does not, one stores.
pub fn line(lowers: &mut [u16], uppers: &mut [u16], base: usize, n: usize) -> bool
    requires { (base + n < length lowers.old) × (base + n < length uppers.old) }
    ensures { Did (base + n + 1) (Line base n) lowers.old uppers.old lowers.new uppers.new result }
{
    if keeps(lowers, uppers, base, n) {
        return false;
    }
    forward_pass(lowers, uppers, base, n);
    backward_pass(lowers, uppers, base, n);
    true
}
