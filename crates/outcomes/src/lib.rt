// What a call of the filter led to, and the number that stands for it: twice the trail's height, and one more for a dead end, so that it is returned in
// a register. Nothing is refused here. The contracts cite `specs/Codes.antt`.
#![tactic(auto)]

ghost use Rattle.std.specs.Prelude.{◌≡◌, ◌+◌, ◌*◌, ◌<◌};
ghost use Rattle.outcomes.specs.Codes.{height_of, is_dead, outcome_of};
ghost use Rattle.outcomes.specs.declared.Outcome.TheVariants.{Live, Dead};

// The trail's height after a call, and whether a stable list may be left. No Result: both cases carry a height, and neither is an error.
#[derive(Clone, Copy)]
pub enum Outcome {
    Live(usize),
    Dead(usize),
}

// The number of a live outcome at the height h.
pub fn live_at(h: usize) -> usize
    requires { 2 * h + 1 < 18446744073709551616 }
    ensures { outcome_of result ≡ Live h }
{
    2 * h
}

// The number of a dead one.
pub fn dead_at(h: usize) -> usize
    requires { 2 * h + 1 < 18446744073709551616 }
    ensures { outcome_of result ≡ Dead h }
{
    2 * h + 1
}

// Whether the number stands for a dead outcome.
pub fn is_dead(code: usize) -> bool
    ensures { result ≡ is_dead (outcome_of code) }
{
    code % 2 == 1
}

// The height that the number tells.
pub fn height(code: usize) -> usize
    ensures { result ≡ height_of (outcome_of code) }
{
    code / 2
}

// The outcome that the number stands for.
pub fn told(code: usize) -> Outcome
    ensures { result ≡ outcome_of code }
{
    if code % 2 == 1 {
        return Outcome::Dead(code / 2);
    }
    Outcome::Live(code / 2)
}
