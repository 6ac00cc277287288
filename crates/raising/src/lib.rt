// A fall of the slack taken back in the cells of one row, by the tag and the note that it left. `raise_in` takes a row of n slots, its cells from 0 to
// n + 1. Nothing is refused here. The contracts cite segments_model's `specs/Raise.antt`.
#![tactic(auto)]

ghost use Rattle.std.specs.Prelude.{◌≡◌, ◌+◌, ◌<◌, ◌≤◌, length, get_or, set};
ghost use Rattle.segments_model.specs.Part.{part, over};
ghost use Rattle.segments_model.specs.Raise.{lifted, parted, risen, Raisable};

// Takes a fall after the slot back, by the tag and the note that it left: the cells are as they were before it.
pub fn raise(cells: &mut [u16], n: usize, slot: usize, tag: usize, note: usize)
    requires { (slot < n) × (n < length cells.old) × (n < 1024) × Raisable n slot tag note cells.old }
    ensures { cells.new ≡ risen n tag note cells.old }
{
    if tag < 2 {
        lift(cells, note + 2 - tag);
        return;
    }
    if tag == 2 {
        unjoin(cells, n, note);
        return;
    }
    let z = cells[0] as usize;
    unspend(cells, z, note);
}

// The same for a row of n slots, the n + 2 cells from `base` on of a longer list, whose other cells stay.
pub fn raise_in(cells: &mut [u16], base: usize, n: usize, slot: usize, tag: usize, note: usize)
    requires { (slot ≤ n) × (base + n + 1 < length cells.old) × (n < 1023) × Raisable (n + 1) slot tag note (part base (n + 2) cells.old) }
    ensures { cells.new ≡ over base (n + 2) (risen (n + 1) tag note) cells.old }
{
    let end = base + n + 2;
    raise(&mut cells[base..end], n + 1, slot, tag, note);
}

// The gap of the right end t is one more.
fn lift(cells: &mut [u16], t: usize)
    requires { (t < length cells.old) × (get_or cells.old t 0 < 1024) }
    ensures { cells.new ≡ lifted t cells.old }
{
    cells[t] = cells[t] + 1;
}

// The right end that p links to, since it was joined to it, is parted from it again; where p is no link, or leads past n, the cells stay.
fn unjoin(cells: &mut [u16], n: usize, p: usize)
    requires { (p ≤ n) × (n < length cells.old) × (n < 1024) }
    ensures { cells.new ≡ parted n p cells.old }
{
    let c = cells[p] as usize;
    if c < 1024 {
        return;
    }
    let t = p + (c - 1023);
    if n < t {
        return;
    }
    split(cells, p, t);
}

// The segment that was spent up to t stands again, and the spent corner is z.
fn unspend(cells: &mut [u16], t: usize, z: usize)
    requires { (t < length cells.old) × (z < 65536) }
    ensures { cells.new ≡ set (set cells.old t 0) 0 z }
{
    cells[t] = 0;
    cells[0] = z as u16;
}

// The segment that ends at t is parted again from the one that ends at p.
fn split(cells: &mut [u16], p: usize, t: usize)
    requires { (p < length cells.old) × (t < length cells.old) }
    ensures { cells.new ≡ set (set cells.old p (get_or cells.old t 0)) t 0 }
{
    cells[p] = cells[t];
    cells[t] = 0;
}
