// What a decision does to a session on the segment engine, where no number refuses it: an assign or a remove, with all that follows. The contract
// says that it is what the plain machine does: `Acts` of acts' `specs/Answers.antt`.
#![tactic(auto)]

ghost use Rattle.session_model.specs.Calls as Calls;
ghost use Rattle.acts.specs.Given.{decision_of};
ghost use Rattle.acts.specs.Answers.{Acts, Deciding};

use acts::{Session, Standing, Stepped};
use cutting::{cut_slot, struck};
use outcomes::Outcome;
use undoing::undo;

// An assign, or a remove: live with what it struck, or dead, and then the masks and the cells are as before.
pub fn decide(
    masks: &mut [u32],
    cells: &mut [u16],
    trail: &mut [u8],
    heights: &[u16],
    n: usize,
    k: u32,
    session: Session,
    i: usize,
    assign: bool,
    slot: usize,
    v: u32,
) -> Stepped
    requires { Deciding masks.old cells.old trail.old heights.now n k session slot v }
    ensures { Acts n k i (Calls.decide (decision_of assign slot v)) session
        masks.old cells.old trail.old heights.now
        masks.new cells.new trail.new heights.now result }
{
    let top = session.top;
    let outcome = cut_slot(masks, cells, trail, n, k, top, slot, v, assign);
    match outcome {
        Outcome::Live(h) => {
            let count = struck(trail, n, top, h, session.idle);
            let live = Session {
                standing: Standing::Live,
                top: h,
                ..session
            };
            Stepped {
                session: live,
                first: 0,
                second: count,
            }
        }
        Outcome::Dead(h) => {
            undo(masks, cells, trail, n, k, top, h);
            let dead = Session {
                standing: Standing::Dead(i),
                ..session
            };
            Stepped {
                session: dead,
                first: 1,
                second: 0,
            }
        }
    }
}
