// Undo: takes calls of the filter back. Each strike that the trail has from a height on is taken back, the latest first: its falls by their
// tags and notes, its value into the masks, and a slot that it left one value into the set of open slots. Nothing is refused here. The contracts
// cite `specs/Undone.antt` and segments_model's `specs/Raise.antt`.
#![tactic(auto)]

ghost use Rattle.std.specs.Prelude.{◌≡◌, ◌+◌, ◌*◌, ◌<◌};
ghost use Rattle.segments_model.specs.Part.{over};
ghost use Rattle.segments_model.specs.Raise.{risen};
ghost use Rattle.undoing.specs.Undone.{RowUndoing, UpperUndoing, UpperUndone, StrikeUndoing, StrikeUndone, Undoable, Undone};

use state_stores::{lift_cell, open_slot, put_in};

// Takes back what was struck while the trail grew from height `from` to height `to`, in the masks and in the cells.
pub fn undo(
    masks: &mut [u32],
    cells: &mut [u16],
    trail: &[u8],
    n: usize,
    k: u32,
    from: usize,
    to: usize,
)
    requires { Undoable masks.old cells.old trail.now n k from to }
    ensures { Undone masks.old cells.old trail.now n k from to masks.new cells.new }
{
    for i in (from..to).rev() {
        take_back(masks, cells, trail, n, k, i);
    }
}

// Takes the strike i back, the latest that is left. Most often it has the tag 0: it lowered a right end after 1 and left several values.
fn take_back(masks: &mut [u32], cells: &mut [u16], trail: &[u8], n: usize, k: u32, i: usize)
    requires { StrikeUndoing masks.old cells.old trail.now n k i }
    ensures { StrikeUndone masks.old cells.old trail.now n k i masks.new cells.new }
{
    let p = 2 * n + 3 * i;
    let slot = trail[p] as usize;
    let both = trail[p + 1] as usize;
    let note = trail[p + 2] as usize;
    if both < 32 {
        lift_cell(cells, both * (n + 2) + note + 2);
        put_in(masks, slot, both as u32);
        return;
    }
    let v = (both % 32) as u32;
    if 128 <= both {
        raise_fixed(masks, cells, trail, n, k, slot);
    }
    raise_row(cells, v, n, slot, both / 32 % 4, note);
    put_in(masks, slot, v);
}

// The slot being fixed, puts it back into the set of open slots, and takes the fall of its value's upper row back.
fn raise_fixed(masks: &[u32], cells: &mut [u16], trail: &[u8], n: usize, k: u32, slot: usize)
    requires { UpperUndoing masks.now cells.old trail.now n k slot }
    ensures { UpperUndone masks.now cells.old trail.now n k slot cells.new }
{
    let w = domains::single_value(masks[slot]);
    open_slot(cells, n, k, slot);
    raise_row(
        cells,
        k + w,
        n,
        slot,
        trail[n + slot] as usize,
        trail[slot] as usize,
    );
}

// Takes the fall of a row after the slot back, by its tag and its note.
fn raise_row(cells: &mut [u16], row: u32, n: usize, slot: usize, tag: usize, note: usize)
    requires { RowUndoing cells.old row n slot tag note }
    ensures { cells.new ≡ over (row * (n + 2)) (n + 2) (risen (n + 1) tag note) cells.old }
{
    raising::raise_in(cells, row as usize * (n + 2), n, slot, tag, note);
}
