// A strike that leaves a slot several values: takes a value out of the slot, lets the value's row of cells fall, and writes the trail; what follows from it
// is the filter's. Nothing is refused here. The contract cites `specs/Thinned.antt` and the definitions of filter_model.
#![tactic(auto)]

ghost use Rattle.std.specs.Prelude.{◌≡◌, ◌<◌, get_or};
ghost use Rattle.std.specs.Int.Count.{ones};
ghost use Rattle.domains.specs.Mask.{clear_bit};
ghost use Rattle.domains.specs.Masks.{HasAt};
ghost use Rattle.filter_model.specs.State.{Ready};
ghost use Rattle.thinning.specs.Thinned.{Thinned};

// Strikes v from a slot that has it and at least two others, so that none gets to be the only one; or finds that no stable list allows it, and
// changes nothing. `left` is the slot's mask without v.
pub fn thin(
    masks: &mut [u32],
    cells: &mut [u16],
    trail: &mut [u8],
    n: usize,
    k: u32,
    top: usize,
    slot: usize,
    v: u32,
    left: u32,
) -> descents::Descent
    requires { Ready masks.old cells.old trail.old n k top slot v × HasAt masks.old slot v
        × (2 < ones (get_or masks.old slot 0)) × (left ≡ clear_bit (get_or masks.old slot 0) v) }
    ensures { Thinned n k masks.old cells.old trail.old top
        masks.new cells.new trail.new slot v result.note result.reach result.clash }
{
    let fell = descents::fall_row(cells, v, n, slot);
    if fell.clash {
        return fell;
    }
    state_stores::push(trail, n, top, slot, v, fell.tag, fell.note);
    state_stores::store(masks, slot, left);
    fell
}
