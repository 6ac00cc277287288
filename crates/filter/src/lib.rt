// The filter: `fix` and `strike` call each other until everything before each corner that loses its last slack is settled, or a dead end is found.
// The calls of the cycle return an outcome as the number of `outcomes`. Nothing is refused here. The contracts cite `specs/Filtered.antt` and the
// definitions of filter_model; one strike is a call of strikes or thinning.
#![tactic(auto)]

ghost use Rattle.std.specs.Prelude.{true, false};
ghost use Rattle.filter_model.specs.Cuts.{StrikeCut, FixCut, BoundCut};
ghost use Rattle.filter_model.specs.Mirror.{SettledFrom};
ghost use Rattle.filter_model.specs.State.{Ready, Pruning};
ghost use Rattle.filter_model.specs.Strike.{Cuts};
ghost use Rattle.outcomes.specs.Codes.{outcome_of};
ghost use Rattle.filter.specs.Filtered.{Filtered, Followed};

use outcomes::{dead_at, height, is_dead, live_at};

// Cuts the slot to value v, with all that follows: strikes each other value that it has. A slot that lacks v is a dead end.
#[cycle(fix_fix_free_follow_strike_strike_free)]
pub fn fix(
    masks: &mut [u32],
    cells: &mut [u16],
    trail: &mut [u8],
    n: usize,
    k: u32,
    top: usize,
    slot: usize,
    v: u32,
) -> usize
    requires { Ready masks.old cells.old trail.old n k top slot v }
    ensures { Filtered n k (FixCut slot v) (FixCut slot v)
        masks.old cells.old trail.old top masks.new cells.new trail.new (outcome_of result) }
{
    let mut h = top;
    let mut rest = slots::other_values(masks, slot, v);
    // a `while`: `rest` is read anew after each call that may have changed the slot
    while 1 < domains::count(rest) {
        let w = domains::lowest(rest);
        rest = domains::less(rest, w);
        let left = domains::with(rest, v);
        let low = thinning::thin(masks, cells, trail, n, k, h, slot, w, left);
        if low.clash {
            return dead_at(h);
        }
        h += 1;
        if low.reach == 0 {
            continue;
        }
        let x = fix_free(masks, cells, trail, n, k, h, w, low.note, low.reach);
        if is_dead(x) {
            return x;
        }
        h = height(x);
        rest = slots::other_values(masks, slot, v);
    }
    if rest != 0 {
        return strike(masks, cells, trail, n, k, h, slot, domains::lowest(rest));
    }
    if !slots::has_value(masks, slot, v) {
        return dead_at(h);
    }
    live_at(h)
}

// Takes value v out of the slot, with all that follows.
#[cycle(fix_fix_free_follow_strike_strike_free)]
pub fn strike(
    masks: &mut [u32],
    cells: &mut [u16],
    trail: &mut [u8],
    n: usize,
    k: u32,
    top: usize,
    slot: usize,
    v: u32,
) -> usize
    requires { Ready masks.old cells.old trail.old n k top slot v }
    ensures { Filtered n k (StrikeCut slot v) (StrikeCut slot v)
        masks.old cells.old trail.old top masks.new cells.new trail.new (outcome_of result) }
{
    if !slots::has_value(masks, slot, v) {
        return live_at(top);
    }
    let o = strikes::strike_one(masks, cells, trail, n, k, top, slot, v);
    let Some(made) = o else {
        return dead_at(top);
    };
    let a = made.low_reach;
    let b = made.high_reach;
    if a == 0 && b == 0 {
        return live_at(top + 1);
    }
    follow(
        masks,
        cells,
        trail,
        n,
        k,
        top + 1,
        v,
        made.low_note,
        a,
        made.only,
        made.high_note,
        b,
    )
}

// What follows a strike: settles the slots from x on before the end a, where the lower bound of v is met, then those from y on before the end b,
// where the upper bound of w is. At an end 0 no bound is met.
#[cycle(fix_fix_free_follow_strike_strike_free)]
fn follow(
    masks: &mut [u32],
    cells: &mut [u16],
    trail: &mut [u8],
    n: usize,
    k: u32,
    top: usize,
    v: u32,
    x: usize,
    a: usize,
    w: u32,
    y: usize,
    b: usize,
) -> usize
    requires { Pruning masks.old cells.old trail.old n k top v a × Pruning masks.old cells.old trail.old n k top w b }
    ensures { Filtered n k (Cuts masks.old v a w b) (Followed v x a w y b)
        masks.old cells.old trail.old top masks.new cells.new trail.new (outcome_of result) }
{
    if a == 0 {
        return strike_free(masks, cells, trail, n, k, top, w, y, b);
    }
    let p = fix_free(masks, cells, trail, n, k, top, v, x, a);
    if is_dead(p) {
        return p;
    }
    if b == 0 {
        return p;
    }
    if !slots::any_open(cells, n, k, y, b) {
        return p;
    }
    strike_free(masks, cells, trail, n, k, height(p), w, y, b)
}

// Where the lower bound of v is met at `end`: fixes each free slot from `start` on before it to v. It looks at the open slots alone, a
// block of their set at a time.
#[cycle(fix_fix_free_follow_strike_strike_free)]
pub fn fix_free(
    masks: &mut [u32],
    cells: &mut [u16],
    trail: &mut [u8],
    n: usize,
    k: u32,
    top: usize,
    v: u32,
    start: usize,
    end: usize,
) -> usize
    requires { Pruning masks.old cells.old trail.old n k top v end }
    ensures { Filtered n k (BoundCut true masks.old v end) (λ M. SettledFrom M v start end)
        masks.old cells.old trail.old top masks.new cells.new trail.new (outcome_of result) }
{
    let mut h = top;
    let mut b = start / 32;
    let mut word = slots::open_block(cells, n, k, b, start, end);
    // a `while`: one loop over blocks and their slots, since an inner loop would add to the frame of each call of the cycle
    while b < (end + 31) / 32 {
        if word == 0 {
            b += 1;
            word = slots::open_block(cells, n, k, b, start, end);
            continue;
        }
        let w = domains::lowest(word);
        word = domains::less(word, w);
        let s = 32 * b + w as usize;
        let rest = slots::other_values(masks, s, v);
        if rest == 0 {
            continue;
        }
        if domains::is_single(rest) {
            let x = strike(masks, cells, trail, n, k, h, s, domains::lowest(rest));
            if is_dead(x) {
                return x;
            }
            h = height(x);
            continue;
        }
        let x = fix(masks, cells, trail, n, k, h, s, v);
        if is_dead(x) {
            return x;
        }
        h = height(x);
    }
    live_at(h)
}

// Where the upper bound of v is met at `end`: strikes v from each free slot from `start` on before it, of the open ones as `fix_free`.
#[cycle(fix_fix_free_follow_strike_strike_free)]
pub fn strike_free(
    masks: &mut [u32],
    cells: &mut [u16],
    trail: &mut [u8],
    n: usize,
    k: u32,
    top: usize,
    v: u32,
    start: usize,
    end: usize,
) -> usize
    requires { Pruning masks.old cells.old trail.old n k top v end }
    ensures { Filtered n k (BoundCut false masks.old v end) (λ M. SettledFrom M v start end)
        masks.old cells.old trail.old top masks.new cells.new trail.new (outcome_of result) }
{
    let mut h = top;
    let mut b = start / 32;
    let mut word = slots::open_block(cells, n, k, b, start, end);
    // a `while`: one loop over blocks and their slots, since an inner loop would add to the frame of each call of the cycle
    while b < (end + 31) / 32 {
        if word == 0 {
            b += 1;
            word = slots::open_block(cells, n, k, b, start, end);
            continue;
        }
        let w = domains::lowest(word);
        word = domains::less(word, w);
        let slot = 32 * b + w as usize;
        if !slots::is_free(masks, slot, v) {
            continue;
        }
        if !slots::is_wide(masks, slot) {
            let x = strike(masks, cells, trail, n, k, h, slot, v);
            if is_dead(x) {
                return x;
            }
            h = height(x);
            continue;
        }
        let left = slots::without_value(masks, slot, v);
        let low = thinning::thin(masks, cells, trail, n, k, h, slot, v, left);
        if low.clash {
            return dead_at(h);
        }
        h += 1;
        if low.reach == 0 {
            continue;
        }
        let x = fix_free(masks, cells, trail, n, k, h, v, low.note, low.reach);
        if is_dead(x) {
            return x;
        }
        h = height(x);
    }
    live_at(h)
}
