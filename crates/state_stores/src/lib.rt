// Single stores in the state of the filter: a mask, a cell, the set of open slots, the trail; what a strike writes, and what puts it back. Nothing is
// refused here. The contracts cite the definitions of segments_model and filter_model.
#![tactic(auto)]

ghost use Rattle.std.specs.Prelude.{◌≡◌, ◌+◌, ◌*◌, ◌<◌, ◌≤◌, length, get_or, set};
ghost use Rattle.settling_model.specs.Settled.{LacksAt};
ghost use Rattle.segments_model.specs.Raise.{lifted};
ghost use Rattle.filter_model.specs.Open.{word_at, open_bit, open_slot, close_slot};
ghost use Rattle.filter_model.specs.Trail.{put_in, written, noted};

// The slot gets the mask m.
pub fn store(masks: &mut [u32], slot: usize, m: u32)
    requires { slot < length masks.old }
    ensures { masks.new ≡ set masks.old slot m }
{
    masks[slot] = m;
}

// Puts value v into the slot, where it is not.
pub fn put_in(masks: &mut [u32], slot: usize, v: u32)
    requires { (slot < length masks.old) × (v < 32) × LacksAt masks.old slot v }
    ensures { masks.new ≡ put_in masks.old slot v }
{
    masks[slot] = domains::with(masks[slot], v);
}

// Takes the slot, which is in it, out of the set of open slots.
pub fn close_slot(cells: &mut [u16], n: usize, k: u32, slot: usize)
    requires { (word_at n k slot < length cells.old) × (n ≤ 256) × (k ≤ 32) × (open_bit n k cells.old slot ≡ 1) }
    ensures { cells.new ≡ close_slot n k slot cells.old }
{
    let at = (k + k) as usize * (n + 2) + slot / 16;
    cells[at] = domains::less(cells[at] as u32, (slot % 16) as u32) as u16;
}

// Puts the slot, which is not in it, into the set of open slots.
pub fn open_slot(cells: &mut [u16], n: usize, k: u32, slot: usize)
    requires { (word_at n k slot < length cells.old) × (n ≤ 256) × (k ≤ 32) × (open_bit n k cells.old slot ≡ 0) }
    ensures { cells.new ≡ open_slot n k slot cells.old }
{
    let at = (k + k) as usize * (n + 2) + slot / 16;
    cells[at] = domains::with(cells[at] as u32, (slot % 16) as u32) as u16;
}

// The gap of the right end at this place of the cells is one more.
pub fn lift_cell(cells: &mut [u16], at: usize)
    requires { (at < length cells.old) × (get_or cells.old at 0 < 1024) }
    ensures { cells.new ≡ lifted at cells.old }
{
    cells[at] = cells[at] + 1;
}

// Writes the struck value on the trail, with the strike's tag and the note of its lower row's fall.
pub fn push(trail: &mut [u8], n: usize, top: usize, slot: usize, v: u32, tag: usize, note: usize)
    requires { (2 * n + 3 * top + 2 < length trail.old) × (slot < 256) × (v < 32) × (tag ≤ 7) × (note < 256) }
    ensures { trail.new ≡ written n trail.old top slot v tag note }
{
    let p = 2 * n + 3 * top;
    let both = v as usize + 32 * tag;
    trail[p] = slot as u8;
    trail[p + 1] = both as u8;
    trail[p + 2] = note as u8;
}

// Writes the tag and the note of the upper row's fall of the slot's only value.
pub fn note_fixed(trail: &mut [u8], n: usize, slot: usize, tag: usize, note: usize)
    requires { (slot < n) × (2 * n ≤ length trail.old) × (tag ≤ 3) × (note < 256) }
    ensures { trail.new ≡ noted n trail.old slot tag note }
{
    trail[slot] = note as u8;
    trail[n + slot] = tag as u8;
}
