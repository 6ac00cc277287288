// The rules across the values at eight prefixes side by side, by sums over the values that are held in scalars. Nothing is refused here; where a sum
// is on the wrong side of its prefix, or does not fit in 16 bits, the answer is that this way does not fit. The contracts cite `specs/Band.antt`.
#![tactic(auto)]

ghost use Rattle.std.specs.Prelude.{◌≡◌, ◌+◌, ◌-◌, ◌≤◌, ◌<◌, length};
ghost use Rattle.closing_model.specs.Table.{view, size};
ghost use Rattle.closing_model.specs.Sweep.{Did};
ghost use Rattle.lanes.specs.Lanes.{lane, Eightfold};
ghost use Rattle.bands.specs.Band.{Band, BandFits, Narrowed, Rooms, SumsUpto, Answer};

use lanes::{Eight, any, less, load, numbers, same, store, sum};

// That the sums at eight prefixes are on the wrong side of them, or do not fit in 16 bits: nothing was done.
#[derive(Clone, Copy, PartialEq, Eq, Debug)]
pub struct Unfit;

// The rules across the values at the prefixes from t to t + 7, and whether they stored something.
pub fn band(
    lowers: &mut [u16],
    uppers: &mut [u16],
    n: usize,
    k: usize,
    t: usize,
) -> Result<bool, Unfit>
    requires { BandFits n k t lowers.old uppers.old }
    ensures { Answer n k t lowers.old uppers.old lowers.new uppers.new result }
{
    if 65527 < t {
        return Err(Unfit);
    }
    let ends = numbers(t);
    let sl = column_sums(lowers, n, k, t);
    let su = column_sums(uppers, n, k, t);
    let bad = sum(sum(less(sl, ends), less(ends, su)), less(su, same(65534)));
    if any(bad) {
        return Err(Unfit);
    }
    Ok(narrow_band(lowers, uppers, n, k, t, less(su, ends), less(ends, sl)))
}

// The sums of a table's entries at the prefixes from t on; 65535 where a sum is more.
fn column_sums(table: &[u16], n: usize, k: usize, t: usize) -> Eight
    requires { (t + 7 ≤ n) × (n < 65536) × (k < 65536) × (length table.now ≡ size n k) }
    ensures { SumsUpto n t table.now k result }
{
    let mut sums = same(0);
    for v in 0..k {
        sums = sum(sums, load(table, v * (n + 1) + t));
    }
    sums
}

// The rules at the prefixes from t on, with the rooms that the sums leave at the start: after a store they ask less than the rules do, and the
// next sweep asks the rest. Whether it stored something.
fn narrow_band(
    lowers: &mut [u16],
    uppers: &mut [u16],
    n: usize,
    k: usize,
    t: usize,
    above: Eight,
    below: Eight,
) -> bool
    requires { BandFits n k t lowers.old uppers.old × Rooms n k t above below (view lowers.old uppers.old) }
    ensures { Did (size n k) (Band n k t) lowers.old uppers.old lowers.new uppers.new result }
{
    let mut moved = same(0);
    for v in 0..k {
        let p = v * (n + 1) + t;
        moved = sum(moved, narrow(lowers, uppers, p, above, below));
    }
    any(moved)
}

// Makes each gap from a lower to its upper no wider than `above` by raising the lower, and no wider than `below` by lowering the upper, at the
// eight places from p on. By how much the gaps were too wide.
fn narrow(lowers: &mut [u16], uppers: &mut [u16], p: usize, above: Eight, below: Eight) -> Eight
    requires { (p + 7 < length lowers.old) × (p + 7 < length uppers.old) }
    ensures { Narrowed p above below lowers.old uppers.old lowers.new uppers.new result }
{
    let a = load(lowers, p);
    let b = load(uppers, p);
    let gap = less(b, a);
    store(lowers, p, raised(a, b, above));
    store(uppers, p, lowered(a, b, below));
    sum(less(gap, above), less(gap, below))
}

// Each lower of a, raised where the gap to its upper in b is wider than its room.
fn raised(a: Eight, b: Eight, room: Eight) -> Eight
    ensures { Eightfold (λ i. (lane result i ≡ lane a i + (lane b i - lane a i - lane room i)) × (lane result i < 65536)) }
{
    Eight {
        e0: raised16(a.e0, b.e0, room.e0),
        e1: raised16(a.e1, b.e1, room.e1),
        e2: raised16(a.e2, b.e2, room.e2),
        e3: raised16(a.e3, b.e3, room.e3),
        e4: raised16(a.e4, b.e4, room.e4),
        e5: raised16(a.e5, b.e5, room.e5),
        e6: raised16(a.e6, b.e6, room.e6),
        e7: raised16(a.e7, b.e7, room.e7),
    }
}

// Each upper of b, lowered where the gap from its lower in a is wider than its room.
fn lowered(a: Eight, b: Eight, room: Eight) -> Eight
    ensures { Eightfold (λ i. lane result i ≡ lane b i - (lane b i - lane a i - lane room i)) }
{
    Eight {
        e0: lowered16(a.e0, b.e0, room.e0),
        e1: lowered16(a.e1, b.e1, room.e1),
        e2: lowered16(a.e2, b.e2, room.e2),
        e3: lowered16(a.e3, b.e3, room.e3),
        e4: lowered16(a.e4, b.e4, room.e4),
        e5: lowered16(a.e5, b.e5, room.e5),
        e6: lowered16(a.e6, b.e6, room.e6),
        e7: lowered16(a.e7, b.e7, room.e7),
    }
}

fn raised16(a: u16, b: u16, room: u16) -> u16
    ensures { (result ≡ a + (b - a - room)) × (result < 65536) }
{
    a + b.saturating_sub(a).saturating_sub(room)
}

fn lowered16(a: u16, b: u16, room: u16) -> u16
    ensures { result ≡ b - (b - a - room) }
{
    b - b.saturating_sub(a).saturating_sub(room)
}
