// Whether the line of a type turns. The contracts cite segments_model's `corner_of`, the corners of the walls, and `specs/Lines.antt`.
ghost use Rattle.std.specs.Prelude.{◌≡◌, true, false, ◌+◌, ◌-◌, ◌<◌, ◌≤◌, length, get_or};
ghost use Rattle.std.specs.Int.Bits.{bit_or};
ghost use Rattle.domains.specs.Counts.{bit};
ghost use Rattle.segments_model.specs.Lines.{corner_of};
ghost use Rattle.canonical_rows.specs.Lines.{line_in, Line, turning};

use stores::{at, either16, entry, less16};

// Whether the line of type v turns at t; lower is its kind, true for the lower bounds.
pub fn corner_at(s: &[u16], n: usize, v: usize, lower: bool, t: usize) -> bool
    requires { Line n v s.now × (0 < t) × (t ≤ n) }
    ensures { result ≡ corner_of lower n (line_in s.now n v) t }
{
    let p = v * (n + 1) + t;
    let here = at(s, p);
    if here != at(s, p - 1) + usize::from(lower) {
        return false;
    }
    t == n || at(s, p + 1) == here + usize::from(!lower)
}

// By how much either bound turns in its way at the entry after p, where one follows it: on lines that grow by 0 or 1 that is 1 at a corner, and else 0.
// No branch: a loop on it takes several entries at once.
pub fn turns(lowers: &[u16], uppers: &[u16], p: usize) -> u16
    requires { (p + 2 < length lowers.now) × (p + 2 < length uppers.now) }
    ensures { result ≡ bit_or (turning true lowers.now p) (turning false uppers.now p) }
{
    let lower = less16(rise(lowers, p), rise(lowers, p + 1));
    let upper = less16(rise(uppers, p + 1), rise(uppers, p));
    either16(lower, upper)
}

// By how much the entry after p is above that at p; 0 where it is below.
fn rise(s: &[u16], p: usize) -> u16
    requires { p + 1 < length s.now }
    ensures { result ≡ get_or s.now (p + 1) 0 - get_or s.now p 0 }
{
    less16(entry(s, p + 1), entry(s, p))
}
