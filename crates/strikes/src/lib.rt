// One strike: takes a value out of a slot, lets the value's row of cells fall, and that of a value which gets to be the slot's only one, and writes
// the trail; what follows from it is the filter's. Nothing is refused here. The contract cites `specs/Answers.antt` and the definitions of
// filter_model.
#![tactic(auto)]

ghost use Rattle.std.specs.Prelude.{◌<◌};
ghost use Rattle.domains.specs.Masks.{HasAt};
ghost use Rattle.filter_model.specs.State.{Ready};
ghost use Rattle.strikes.specs.Answers.{RemovalAnswer};

// A strike that was made: the slots from `low_note` on and before `low_reach` must be settled for the struck value, those from `high_note` on and before
// `high_reach` for the slot's only value, `only`. At a reach 0 there are none.
#[derive(Clone, Copy)]
pub struct Struck {
    pub low_note: usize,
    pub low_reach: usize,
    pub high_note: usize,
    pub high_reach: usize,
    pub only: u32,
}

// Strikes v, which the slot has, and brings the counts up to date; or None, where no stable list allows it, and nothing changes.
pub fn strike_one(
    masks: &mut [u32],
    cells: &mut [u16],
    trail: &mut [u8],
    n: usize,
    k: u32,
    top: usize,
    slot: usize,
    v: u32,
) -> Option<Struck>
    requires { Ready masks.old cells.old trail.old n k top slot v × HasAt masks.old slot v }
    ensures { RemovalAnswer n k masks.old cells.old trail.old top
        masks.new cells.new trail.new slot v result }
{
    let m = slots::without_value(masks, slot, v);
    if m == 0 {
        return None;
    }
    if slot < descents::spent(cells, v, n) {
        return None;
    }
    if !domains::is_single(m) {
        state_stores::store(masks, slot, m);
        let low = descents::fall_row(cells, v, n, slot);
        state_stores::push(trail, n, top, slot, v, low.tag, low.note);
        return Some(Struck {
            low_note: low.note,
            low_reach: low.reach,
            high_note: 0,
            high_reach: 0,
            only: 0,
        });
    }
    let w = domains::single_value(m);
    if slot < descents::spent(cells, k + w, n) {
        return None;
    }
    state_stores::store(masks, slot, m);
    let low = descents::fall_row(cells, v, n, slot);
    state_stores::push(trail, n, top, slot, v, low.tag + 4, low.note);
    let high = descents::fall_row(cells, k + w, n, slot);
    state_stores::close_slot(cells, n, k, slot);
    state_stores::note_fixed(trail, n, slot, high.tag, high.note);
    Some(Struck {
        low_note: low.note,
        low_reach: low.reach,
        high_note: high.note,
        high_reach: high.reach,
        only: w,
    })
}
