// One call on a session: refused, or done as the plain machine of session_model does it. The contracts cite `Steps` of
// `specs/Steps.antt`.
#![tactic(auto)]

ghost use Rattle.std.specs.Prelude.{◌≡◌, ◌+◌};
ghost use Rattle.answer.specs.Answer.{number_of};
ghost use Rattle.calls.specs.Given.{call_given};
ghost use Rattle.acts.specs.Represents.{Running};
ghost use Rattle.stepping.specs.Steps.{Steps};

use acts::{Session, Stepped, back, is_dead, mark, show, walls};
use answer::{Refusal, word};
use calls::{Call, check_call};
use deciding::decide;
use performing::perform;

// Call i of a list: refused, or done.
#[tactic(auto, using(crate::proofs::StepLaws::steps_done, crate::proofs::StepLaws::steps_refused))]
pub fn step(
    masks: &mut [u32],
    cells: &mut [u16],
    trail: &mut [u8],
    heights: &mut [u16],
    n: usize,
    k: u32,
    session: Session,
    call: Call,
    i: usize,
) -> Stepped
    requires { Running masks.old cells.old trail.old heights.old n k session }
    ensures { Steps n k i (call_given call) session
        masks.old cells.old trail.old heights.old
        masks.new cells.new trail.new heights.new result }
{
    let standing = session.standing;
    let marks = session.marks;
    let dead = is_dead(standing);
    let limit = heights.len();
    match check_call(call, dead, marks, limit, n, k) {
        Ok(()) => perform(masks, cells, trail, heights, n, k, session, call, i),
        Err(refusal) => refused(session, refusal),
    }
}

// The same for a call that comes alone, with the arms of `perform` in place of a call. A function of this size is compiled into its caller where
// that is the only one: a list's loop has `step`, and the entry of a single call has this.
#[tactic(auto, using(crate::proofs::StepLaws::steps_done, crate::proofs::StepLaws::steps_refused))]
pub fn step_alone(
    masks: &mut [u32],
    cells: &mut [u16],
    trail: &mut [u8],
    heights: &mut [u16],
    n: usize,
    k: u32,
    session: Session,
    call: Call,
    i: usize,
) -> Stepped
    requires { Running masks.old cells.old trail.old heights.old n k session }
    ensures { Steps n k i (call_given call) session
        masks.old cells.old trail.old heights.old
        masks.new cells.new trail.new heights.new result }
{
    let standing = session.standing;
    let marks = session.marks;
    let dead = is_dead(standing);
    let limit = heights.len();
    if let Err(refusal) = check_call(call, dead, marks, limit, n, k) {
        return refused(session, refusal);
    }
    match call {
        Call::Assign { slot, value } => decide(
            masks, cells, trail, heights, n, k, session, i, true, slot, value,
        ),
        Call::Remove { slot, value } => decide(
            masks, cells, trail, heights, n, k, session, i, false, slot, value,
        ),
        Call::Mark => mark(heights, session),
        Call::Back => back(masks, cells, trail, heights, n, k, session),
        Call::Show { slot } => show(masks, session, slot),
        Call::UpperWalls { value } => walls(cells, n, k, session, false, value),
        Call::LowerWalls { value } => walls(cells, n, k, session, true, value),
        Call::Unknown => unreachable!(),
    }
}

// What a refused call answers. The session stays as it is.
fn refused(session: Session, refusal: Refusal) -> Stepped
    ensures session { result.session ≡ session }
    ensures first { result.first ≡ 256 + number_of refusal }
    ensures second { result.second ≡ 0 }
{
    Stepped {
        session,
        first: word(Err(refusal)),
        second: 0,
    }
}
