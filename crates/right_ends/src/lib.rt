// The right ends of a row of cells: how far a link leads, the last right end before a slot, and what becomes of one whose gap is used up: its segment is
// spent, or joined to the one before. A cell below 1024 is a right end, from 1024 on it is a link (segments_model's `specs/Links.antt`). Nothing is
// refused here. The contracts cite the definitions of segments_model.
#![tactic(auto)]

ghost use Rattle.std.specs.Prelude.{◌≡◌, ◌+◌, ◌-◌, ◌<◌, ◌≤◌, length, get_or, set};
ghost use Rattle.segments_model.specs.Links.{gaps};
ghost use Rattle.segments_model.specs.Search.{Latest};

// How far the link c leads; a right end leads nowhere.
pub fn hop(c: usize) -> usize
    ensures { result ≡ c - 1023 }
{
    c.saturating_sub(1023)
}

// The last right end after z up to the slot, or z.
pub fn latest_standing(cells: &[u16], z: usize, slot: usize) -> usize
    requires { (z ≤ slot) × (slot < length cells.now) }
    ensures { Latest z slot (gaps cells.now) result }
{
    for p in (z + 1..slot + 1).rev() {
        if cells[p] < 1024 {
            return p;
        }
    }
    z
}

// The leftmost segment, whose right end t has no slack left, is spent.
pub fn spend(cells: &mut [u16], t: usize)
    requires { (t < length cells.old) × (t < 65536) }
    ensures { cells.new ≡ set (set cells.old t 1024) 0 t }
{
    cells[t] = 1024;
    cells[0] = t as u16;
}

// The segment that ends at p is joined to the one that ends at t, whose slack has come down to that of p.
pub fn join(cells: &mut [u16], p: usize, t: usize)
    requires { (p < t) × (t < length cells.old) × (t < 1024) }
    ensures { cells.new ≡ set (set cells.old t (get_or cells.old p 0)) p (1024 + (t - p - 1)) }
{
    cells[t] = cells[p];
    cells[p] = (1023 + (t - p)) as u16;
}
