// A list of calls on a kept session. It refuses by 10 where the list is not whole calls or too long, then by 9 where the answers are too short. The contracts
// cite kept_model's `specs/Kept.antt` and `specs/Entries.antt`.
ghost use Rattle.std.specs.Prelude.{◌≡◌, Ok};
ghost use Rattle.acts.specs.Given.{is_dead};
ghost use Rattle.answer.specs.Answer.{word_of};
ghost use Rattle.book.specs.Refusal.{number_of};
ghost use Rattle.kept_model.specs.Entries.{step_fault, dead_word, KeptSteps};
ghost use Rattle.kept_model.specs.Kept.{Kept};
ghost use Rattle.kept_model.specs.Memory.{memory};

use crate::numbers::{MADE, SLOTS, TYPES, number_at, session_in, write_numbers};
use acts::{Standing, is_dead};
use answer::{Refusal, Verdict};
use running::run;

// The most calls of a session: the number of each fits 64 bits.
pub const MOST_CALLS: usize = 9_223_372_036_854_775_808;

const MOST_BYTES: usize = 16384;

// Makes a list of calls: two words for each into the front of answers.
pub fn step(
    calls: &[u8],
    answers: &mut [u32],
    masks: &mut [u32],
    cells: &mut [u16],
    trail: &mut [u8],
    heights: &mut [u16],
    numbers: &mut [usize],
) -> Result<Verdict, Refusal>
    requires { Kept (memory masks.old cells.old trail.old heights.old numbers.old) }
    ensures { KeptSteps calls.now answers.old
        (memory masks.old cells.old trail.old heights.old numbers.old) (word_of result)
        answers.new (memory masks.new cells.new trail.new heights.new numbers.new) }
{
    let made = number_at(numbers, MADE);
    check(made, calls.len(), answers.len())?;
    let n = number_at(numbers, SLOTS);
    let types = number_at(numbers, TYPES);
    let k = types as u32;
    let session = session_in(numbers);
    let after = run(
        calls,
        answers,
        &mut masks[..n],
        cells,
        trail,
        heights,
        n,
        k,
        session,
        made,
    );
    write_numbers(numbers, n, types, made + calls.len() / 4, after);
    let standing = after.standing;
    Ok(stands(standing))
}

// What refuses a list of so many bytes after so many calls, or answers with so much room.
fn check(made: usize, bytes: usize, room: usize) -> Result<(), Refusal>
    ensures { number_of result ≡ step_fault made bytes room }
{
    if bytes % 4 != 0 {
        return Err(Refusal::CallList);
    }
    if MOST_BYTES < bytes {
        return Err(Refusal::CallList);
    }
    let count = bytes / 4;
    if MOST_CALLS - count < made {
        return Err(Refusal::CallList);
    }
    if room < 2 * count {
        return Err(Refusal::OutputTooShort);
    }
    Ok(())
}

fn stands(standing: Standing) -> Verdict
    ensures { word_of (Ok result) ≡ dead_word (is_dead standing) }
{
    if is_dead(standing) {
        return Verdict::Dead;
    }
    Verdict::Live
}
