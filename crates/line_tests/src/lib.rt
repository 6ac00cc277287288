// Tests of one value's line, without a branch in the loop: whether it keeps its rules, and whether some entries of it are crossed. Nothing is refused here.
// The contracts cite `CrossAnswer` of specs/Cross.antt, and `Decides`, `Stairs` and `Line` of closing_model's specs/Sweep.antt.
#![tactic(auto)]

ghost use Rattle.std.specs.Prelude.{◌+◌, ◌≤◌, ◌<◌, length, get_or};
ghost use Rattle.closing_model.specs.Table.{view};
ghost use Rattle.closing_model.specs.Sweep.{Decides, Stairs, Line};
ghost use Rattle.line_tests.specs.Cross.{CrossAnswer};

// Whether each entry of a line is the one before or one more: by the bits of all rises and of all falls, without a branch in the loop.
fn stairs(s: &[u16], base: usize, n: usize) -> bool
    requires { base + n < length s.now }
    ensures { Decides (Stairs (λ p. get_or s.now p 0) base n) result }
{
    let mut rise = 0;
    let mut fall = 0;
    for t in 0..n {
        let a = s[base + t];
        let b = s[base + t + 1];
        rise |= b.saturating_sub(a);
        fall |= a.saturating_sub(b);
    }
    if 1 < rise {
        return false;
    }
    if 0 < fall {
        return false;
    }
    true
}

// Whether one value's line keeps its rules.
pub fn keeps(lowers: &[u16], uppers: &[u16], base: usize, n: usize) -> bool
    requires { (base + n < length lowers.now) × (base + n < length uppers.now) }
    ensures { Decides (Line base n (view lowers.now uppers.now)) result }
{
    if stairs(lowers, base, n) {
        return stairs(uppers, base, n);
    }
    false
}

// Whether one of the m entries from p on is crossed, by the bits of all gaps from an upper to its lower, without a branch in the loop.
pub fn crosses(lowers: &[u16], uppers: &[u16], p: usize, m: usize) -> bool
    requires { (p + m ≤ length lowers.now) × (p + m ≤ length uppers.now) }
    ensures { CrossAnswer p m (view lowers.now uppers.now) result }
{
    let mut gap = 0;
    for t in 0..m {
        let a = lowers[p + t];
        let b = uppers[p + t];
        gap |= a.saturating_sub(b);
    }
    0 < gap
}
