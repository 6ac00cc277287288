// The corners of one value's line, read from the rises of a bound, and the counts by which the slack at a corner is known: the line there, and how
// many of the slots before it count for the kind. `lower` is the kind: true for the lower bound. Nothing is refused here. The contracts cite
// `specs/Turn.antt` and the definitions of segments_model.
#![tactic(auto)]

ghost use Rattle.std.specs.Prelude.{◌≡◌, ◌<◌, ◌≤◌, length, get_or};
ghost use Rattle.domains.specs.Mask.{test_bit};
ghost use Rattle.segments_model.specs.Build.{Counts};
ghost use Rattle.segments_model.specs.Lines.{line_of, corner_of, tick};
ghost use Rattle.corners.specs.Turn.{PreviousTurn, PreviousCorner};

#[derive(Clone, Copy)]
pub struct Totals {
    // the line at a prefix
    pub risen: u32,
    // how many of the slots before it count for the kind
    pub counted: u32,
}

// Whether the line turns at t.
pub fn corner_at(rises: &[u32], n: usize, v: u32, lower: bool, t: usize) -> bool
    requires { (0 < t) × (t ≤ n) × (n < length rises.now) × (v < 32) }
    ensures { result ≡ corner_of lower n (line_of rises.now v) t }
{
    if rise(rises, t, v) != u32::from(lower) {
        return false;
    }
    if t == n {
        return true;
    }
    rise(rises, t + 1, v) == u32::from(!lower)
}

// The last corner before t, or 0.
pub fn previous_corner(rises: &[u32], n: usize, v: u32, lower: bool, t: usize) -> usize
    requires { (0 < t) × (t ≤ n) × (n < length rises.now) × (v < 32) }
    ensures { PreviousCorner (corner_of lower n (line_of rises.now v)) t result }
{
    let mut i = previous_turn(rises, v, t);
    // a `while`: i goes from turn to turn, by no fixed step
    while 0 < i {
        if rise(rises, i, v) == u32::from(lower) {
            return i;
        }
        i = previous_turn(rises, v, i);
    }
    i
}

// The line and the count at n.
pub fn count_all(rises: &[u32], masks: &[u32], n: usize, v: u32, lower: bool) -> Totals
    requires { (n < length rises.now) × (n ≤ length masks.now) × (n < 1024) × (v < 32) }
    ensures { Counts lower rises.now masks.now v n result.risen result.counted }
{
    let mut risen: u32 = 0;
    let mut counted: u32 = 0;
    for t in 0..n {
        counted += tick(masks, t, v, lower);
        risen += rise(rises, t + 1, v);
    }
    Totals { risen, counted }
}

// The line and the count at s, from those at t.
pub fn count_back(
    rises: &[u32],
    masks: &[u32],
    v: u32,
    lower: bool,
    s: usize,
    t: usize,
    risen: u32,
    counted: u32,
) -> Totals
    requires { (s ≤ t) × (t < length rises.now) × (t ≤ length masks.now) × (v < 32) × Counts lower rises.now masks.now v t risen counted }
    ensures { Counts lower rises.now masks.now v s result.risen result.counted }
{
    let mut r = risen;
    let mut k = counted;
    for i in (s..t).rev() {
        r -= rise(rises, i + 1, v);
        k -= tick(masks, i, v, lower);
    }
    Totals {
        risen: r,
        counted: k,
    }
}

// The last prefix before t where the line turns, for either kind, or 0.
fn previous_turn(rises: &[u32], v: u32, t: usize) -> usize
    requires { (0 < t) × (t < length rises.now) × (v < 32) }
    ensures { PreviousTurn rises.now v t result }
{
    // a `while`: this loop is the longest of an opening, and a range walked backwards, which was tried, takes an instruction more at each step
    let mut i = t - 1;
    while 0 < i {
        if rise(rises, i, v) != rise(rises, i + 1, v) {
            return i;
        }
        i -= 1;
    }
    i
}

// By how much the line grows at t.
fn rise(rises: &[u32], t: usize, v: u32) -> u32
    requires { (t < length rises.now) × (v < 32) }
    ensures { result ≡ test_bit (get_or rises.now t 0) v }
{
    u32::from(domains::has(rises[t], v))
}

// What the slot counts for the kind: whether it has v, or is fixed to v.
fn tick(masks: &[u32], slot: usize, v: u32, lower: bool) -> u32
    requires { (slot < length masks.now) × (v < 32) }
    ensures { result ≡ tick lower (get_or masks.now slot 0) v }
{
    let m = masks[slot];
    if lower {
        return u32::from(domains::has(m, v));
    }
    u32::from(m == domains::only(v))
}
