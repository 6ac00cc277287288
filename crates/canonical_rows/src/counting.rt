// How many rows the corners of a type need. The contracts cite canonical_model's `specs/CornerRows.antt` and `specs/Lines.antt`.
ghost use Rattle.std.specs.Prelude.{◌≡◌, ◌+◌, ◌<◌, ◌≤◌, length};
ghost use Rattle.closing_model.specs.Table.{view};
ghost use Rattle.canonical_model.specs.CornerRows.{has_corner, line_rows};
ghost use Rattle.canonical_rows.specs.Lines.{Lines, part_rows};

use crate::turns::{corner_at, turns};

// How many rows type v needs.
pub fn count_line(lowers: &[u16], uppers: &[u16], n: usize, v: usize) -> usize
    requires { Lines n v lowers.now uppers.now × (0 < n) }
    ensures { (result ≡ length (line_rows n (view lowers.now uppers.now) v n)) × (result ≤ 256) }
{
    let inner = count_ends(lowers, uppers, n, v, 0, n - 1) as usize;
    if has_corner(lowers, uppers, n, v, n) {
        return inner + 1;
    }
    inner
}

// How many rows type v needs at the m ends after from, all before n.
pub fn count_ends(lowers: &[u16], uppers: &[u16], n: usize, v: usize, from: usize, m: usize) -> u16
    requires { Lines n v lowers.now uppers.now × (from + m < n) }
    ensures { (result ≡ length (part_rows n (view lowers.now uppers.now) v from m)) × (result ≤ m) }
{
    let p = v * (n + 1) + from;
    let mut count: u16 = 0;
    for i in 0..m {
        count += turns(lowers, uppers, p + i);
    }
    count
}

// Whether (v, t) is a corner of either kind.
fn has_corner(lowers: &[u16], uppers: &[u16], n: usize, v: usize, t: usize) -> bool
    requires { Lines n v lowers.now uppers.now × (0 < t) × (t ≤ n) }
    ensures { result ≡ has_corner n (view lowers.now uppers.now) v t }
{
    corner_at(lowers, n, v, true, t) || corner_at(uppers, n, v, false, t)
}
