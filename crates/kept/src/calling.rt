// One call on a kept session, without lists. The contracts cite kept_model's `specs/Kept.antt` and `specs/Entries.antt`.
ghost use Rattle.std.specs.Prelude.{◌≡◌};
ghost use Rattle.calls.specs.Given.{call_given};
ghost use Rattle.session_model.specs.Calls.{call_of};
ghost use Rattle.kept_model.specs.Entries.{KeptCalls};
ghost use Rattle.kept_model.specs.Kept.{Kept};
ghost use Rattle.kept_model.specs.Memory.{memory};

use crate::Words;
use crate::numbers::{MADE, SLOTS, TYPES, number_at, session_in, write_numbers};
use crate::steps::MOST_CALLS;
use answer::{Refusal, word};
use calls::Call;
use stepping::step_alone;

// Makes one call. After the most calls it is refused by 10, and nothing changes.
pub fn call(
    kind: u32,
    value: u32,
    slot: u32,
    masks: &mut [u32],
    cells: &mut [u16],
    trail: &mut [u8],
    heights: &mut [u16],
    numbers: &mut [usize],
) -> Words
    requires { Kept (memory masks.old cells.old trail.old heights.old numbers.old) }
    ensures { KeptCalls (call_of kind value slot)
        (memory masks.old cells.old trail.old heights.old numbers.old) result.first result.second
        (memory masks.new cells.new trail.new heights.new numbers.new) }
{
    let made = number_at(numbers, MADE);
    if MOST_CALLS <= made {
        return Words {
            first: word(Err(Refusal::CallList)),
            second: 0,
        };
    }
    let n = number_at(numbers, SLOTS);
    let types = number_at(numbers, TYPES);
    let k = types as u32;
    let session = session_in(numbers);
    let call = numbered(kind, value, slot);
    let stepped = step_alone(
        &mut masks[..n],
        cells,
        trail,
        heights,
        n,
        k,
        session,
        call,
        made,
    );
    let after = stepped.session;
    write_numbers(numbers, n, types, made + 1, after);
    Words {
        first: stepped.first,
        second: stepped.second,
    }
}

// The call of a kind, a type and a slot of any numbers: a kind above 7 is unknown, as 0 is.
#[tactic(auto, using(session_model::proofs::CallsLaws::call_of_unknown), unfolding(session_model::specs::Calls::call_of))]
fn numbered(kind: u32, value: u32, slot: u32) -> Call
    ensures { call_given result ≡ call_of kind value slot }
{
    Call::new(kind, value, slot as usize)
}
