// One call on a session that no number refuses, done as the plain machine of session_model does it. A call of no known kind is refused before. The
// contract cites `Performing` of `specs/Performing.antt`, and `Acts` of acts.
#![tactic(auto)]

ghost use Rattle.calls.specs.Given.{call_given};
ghost use Rattle.acts.specs.Answers.{Acts};
ghost use Rattle.performing.specs.Performing.{Performing};

use acts::{Session, Stepped, back, mark, show, walls};
use calls::Call;
use deciding::decide;

// Call i of a list, where no number refuses it. The arms that only ask return: in the match's value the session would be put together anew at each call.
pub fn perform(
    masks: &mut [u32],
    cells: &mut [u16],
    trail: &mut [u8],
    heights: &mut [u16],
    n: usize,
    k: u32,
    session: Session,
    call: Call,
    i: usize,
) -> Stepped
    requires { Performing masks.old cells.old trail.old heights.old n k session (call_given call) }
    ensures { Acts n k i (call_given call) session
        masks.old cells.old trail.old heights.old
        masks.new cells.new trail.new heights.new result }
{
    match call {
        Call::Assign { slot, value } => decide(
            masks, cells, trail, heights, n, k, session, i, true, slot, value,
        ),
        Call::Remove { slot, value } => decide(
            masks, cells, trail, heights, n, k, session, i, false, slot, value,
        ),
        Call::Mark => mark(heights, session),
        Call::Back => back(masks, cells, trail, heights, n, k, session),
        Call::Show { slot } => return show(masks, session, slot),
        Call::UpperWalls { value } => return walls(cells, n, k, session, false, value),
        Call::LowerWalls { value } => return walls(cells, n, k, session, true, value),
        Call::Unknown => unreachable!(),
    }
}
