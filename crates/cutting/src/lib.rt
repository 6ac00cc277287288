// The parts of a decision: the slot cut by an assign or a remove, with all that follows, and what that struck. The contracts cite filter's
// `specs/Filtered.antt`, `CutOf`, `Strikes` and `OnesLost` of acts, and `news` of session_model.
#![tactic(auto)]

ghost use Rattle.std.specs.Prelude.{◌≡◌, ◌+◌, ◌*◌, ◌≤◌, ◌<◌, length};
ghost use Rattle.filter_model.specs.State.{Ready};
ghost use Rattle.filter_model.specs.Trail.{value_at};
ghost use Rattle.filter.specs.Filtered.{Filtered};
ghost use Rattle.session_model.specs.News as News;
ghost use Rattle.acts.specs.Given.{CutOf};
ghost use Rattle.acts.specs.Answers.{Strikes, OnesLost};

use filter::{fix, strike};
use outcomes::{Outcome, told};

// Cuts the slot to v, or strikes v from it, with all that follows.
pub fn cut_slot(
    masks: &mut [u32],
    cells: &mut [u16],
    trail: &mut [u8],
    n: usize,
    k: u32,
    top: usize,
    slot: usize,
    v: u32,
    assign: bool,
) -> Outcome
    requires { Ready masks.old cells.old trail.old n k top slot v }
    ensures { Filtered n k (CutOf assign slot v) (CutOf assign slot v)
        masks.old cells.old trail.old top masks.new cells.new trail.new result }
{
    if assign {
        return told(fix(masks, cells, trail, n, k, top, slot, v));
    }
    told(strike(masks, cells, trail, n, k, top, slot, v))
}

// The ones of the masks at height `from` of the trail less those at height `to`, the idle value left out: what each strike between took out is
// counted.
pub fn struck(trail: &[u8], n: usize, from: usize, to: usize, idle: usize) -> u32
    requires { Strikes n idle trail.now from to }
    ensures { OnesLost n idle trail.now from to result }
{
    let mut count: u32 = 0;
    for i in from..to {
        let v = value_at(trail, n, i);
        count += news(domains::only(v), idle);
    }
    count
}

// How many values m has besides the idle one; idle is 0 for none, else that value plus 1.
fn news(m: u32, idle: usize) -> u32
    requires { idle ≤ 32 }
    ensures { result ≡ News.news idle m }
{
    if idle == 0 {
        return domains::count(m);
    }
    domains::count(domains::without(m, (idle - 1) as u32))
}

// The value of the strike i.
fn value_at(trail: &[u8], n: usize, i: usize) -> u32
    requires { 2 * n + 3 * i + 1 < length trail.now }
    ensures { result ≡ value_at n trail.now i }
{
    (trail[2 * n + 3 * i + 1] % 32) as u32
}
