// Settling, word for word: for each type and end the rules of a stable list are asked anew, over all slots, until none of them strikes
// anything or one is broken.
use crate::tables::Bounds;
use crate::{ROUNDS, Stop};
use arrays::{Masks, Size, alone, fixed, has};

// Settles the masks with the closed table.
pub fn settle(size: Size, bounds: &Bounds, masks: &mut Masks) -> Result<(), Stop> {
    for _ in 0..ROUNDS {
        if (0..size.slots).any(|slot| masks.mask(slot) == 0) {
            return Err(Stop::Dead);
        }
        if !pass(size, bounds, masks)? {
            return Ok(());
        }
    }
    Err(Stop::Rounds)
}

// Asks the rules for each type and each end from 1. Whether a mask changed.
fn pass(size: Size, bounds: &Bounds, masks: &mut Masks) -> Result<bool, Stop> {
    let mut changed = false;
    for v in 0..size.table_types() {
        for t in 1..size.table_ends() {
            changed |= ask(v, t, bounds, masks)?;
        }
    }
    Ok(changed)
}

// Asks the rules for type v and end t. Whether a mask changed.
fn ask(v: usize, t: usize, bounds: &Bounds, masks: &mut Masks) -> Result<bool, Stop> {
    let lower = bounds.lower.entry(v, t);
    let upper = bounds.upper.entry(v, t);
    let p = possible(v, t, masks);
    let b = bound(v, t, masks);
    if p < lower || upper < b {
        return Err(Stop::Dead);
    }
    let mut changed = false;
    if p == lower {
        changed |= change_open(v, t, masks, |_| alone(v));
    }
    if b == upper {
        changed |= change_open(v, t, masks, |mask| mask & !alone(v));
    }
    Ok(changed)
}

// P(v, t): the slots before t that have v.
pub fn possible(v: usize, t: usize, masks: &Masks) -> usize {
    masks.count(t, |mask| has(mask, v))
}

// B(v, t): the slots before t that are fixed to v.
pub fn bound(v: usize, t: usize, masks: &Masks) -> usize {
    masks.count(t, |mask| fixed(mask, v))
}

// Gives each slot before t that has v and is not fixed to it the mask that the rule makes of its own. Whether there is one.
fn change_open<F: Fn(u32) -> u32>(v: usize, t: usize, masks: &mut Masks, rule: F) -> bool
    requires { F.IsAlwaysCallable rule }
{
    let mut changed = false;
    for slot in 0..t {
        let old = masks.mask(slot);
        if has(old, v) && !fixed(old, v) {
            masks.set_mask(slot, rule(old));
            changed = true;
        }
    }
    changed
}
