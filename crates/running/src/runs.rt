// A list of calls. The contract says that it does what the plain machine does: `Runs` of running_model's `specs/Runs.antt`.
ghost use Rattle.std.specs.Prelude.{◌≡◌, ◌+◌, ◌*◌, ◌<◌, length, set};
ghost use Rattle.session_model.specs.Calls.{calls_of};
ghost use Rattle.running_model.specs.Runs.{Runs, Runnable};

use acts::Session;
use calls::call_at;
use stepping::step;

// Runs a whole list of calls, each on the session that the one before left, and writes two words for each. `made` calls were made before it. The
// session after the last.
pub fn run(
    calls: &[u8],
    answers: &mut [u32],
    masks: &mut [u32],
    cells: &mut [u16],
    trail: &mut [u8],
    heights: &mut [u16],
    n: usize,
    k: u32,
    session: Session,
    made: usize,
) -> Session
    requires { Runnable calls.now answers.old masks.old cells.old trail.old heights.old n k session made }
    ensures { Runs n k made (calls_of calls.now) session
        masks.old cells.old trail.old heights.old answers.old
        result masks.new cells.new trail.new heights.new answers.new }
{
    let count = calls.len() / 4;
    let mut at = session;
    for i in 0..count {
        let call = call_at(calls, i);
        let stepped = step(masks, cells, trail, heights, n, k, at, call, made + i);
        let first = stepped.first;
        let second = stepped.second;
        write_words(answers, i, first, second);
        at = stepped.session;
    }
    at
}

// Writes the two words of call i.
fn write_words(answers: &mut [u32], i: usize, first: u32, second: u32)
    requires { 2 * i + 1 < length answers.old }
    ensures { answers.new ≡ set (set answers.old (2 * i) first) (2 * i + 1) second }
{
    let at = 2 * i;
    answers[at] = first;
    answers[at + 1] = second;
}
