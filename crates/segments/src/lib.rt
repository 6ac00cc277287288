// The segments of one value and one kind of bound, kept in one cell for each prefix from 0 to n: brought up to date when the slack falls by one
// after a slot. Cell 0 is the spent corner. A later cell below 1024 is a right end, one less than its gap; from 1024 on it is a link to a later
// place, 1024 to the next one, that jumps no right end. `fall_in` takes a row of n slots, its cells from 0 to n + 1. Nothing is refused here. The
// contracts cite `specs/UsedUp.antt`, `specs/Fell.antt` and the definitions of segments_model.
#![tactic(auto)]

ghost use Rattle.std.specs.Prelude.{◌+◌, ◌<◌, ◌≤◌, length};
ghost use Rattle.segments_model.specs.Part.{Lent};
ghost use Rattle.segments.specs.UsedUp.{UsedUp};
ghost use Rattle.segments.specs.Fell.{Fell};

use right_ends::{hop, join, latest_standing, spend};

// What a fall of the slack meets. No corner loses its last slack: the gap of the right end t fell by one, no right end is after the slot, or the
// right end p was joined. A corner has none to lose. Or t is the last corner that loses its last slack, and the spent corner was z.
#[derive(Clone, Copy)]
pub enum Hit {
    Lowered(usize),
    Still,
    Joined(usize),
    Clash,
    Reached(usize, usize),
}

// Lowers the slack by one at each corner after the slot.
pub fn fall(cells: &mut [u16], n: usize, slot: usize) -> Hit
    requires { (slot < n) × (n < length cells.old) × (n < 1024) }
    ensures { Fell n slot cells.old cells.new result }
{
    let z = cells[0] as usize;
    if slot < z {
        return Hit::Clash;
    }
    let mut t = slot + 1 + hop(cells[slot + 1] as usize);
    if n < t {
        return Hit::Still;
    }
    let mut d = cells[t] as usize;
    // a `while`: t follows the links, by no fixed step
    while 1024 <= d {
        t = t + (d - 1023);
        if n < t {
            return Hit::Still;
        }
        d = cells[t] as usize;
    }
    if 0 < d {
        cells[t] = (d - 1) as u16;
        return Hit::Lowered(t);
    }
    use_up(cells, n, z, slot, t)
}

// The gap of t, the first right end after the slot, being used up: its segment is joined to the one before, or is the leftmost and is spent. The links
// after the spent corner z lead to a right end up to the slot, or past it.
fn use_up(cells: &mut [u16], n: usize, z: usize, slot: usize, t: usize) -> Hit
    requires { (z ≤ slot) × (slot < t) × (t ≤ n) × (n < length cells.old) × (n < 1024) }
    ensures { UsedUp n z slot t cells.old cells.new result }
{
    let mut e = z + 1;
    // a `while`: e follows the links, by no fixed step
    while e <= slot {
        let c = cells[e] as usize;
        if c < 1024 {
            let p = latest_standing(cells, e, slot);
            join(cells, p, t);
            return Hit::Joined(p);
        }
        e = e + (c - 1023);
    }
    spend(cells, t);
    Hit::Reached(t, z)
}

// The same for a row of n slots, the n + 2 cells from `base` on of a longer list, whose other cells stay.
pub fn fall_in(cells: &mut [u16], base: usize, n: usize, slot: usize) -> Hit
    requires { (slot ≤ n) × (base + n + 1 < length cells.old) × (n < 1023) }
    ensures { Lent base (n + 2) (λ a b. Fell (n + 1) slot a b result) cells.old cells.new }
{
    let end = base + n + 2;
    fall(&mut cells[base..end], n + 1, slot)
}
