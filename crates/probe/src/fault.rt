// What refuses a book, a list of assign calls or the output lent with them. The contracts cite probe_model's `specs/Probe.antt`.
ghost use Rattle.std.specs.Prelude.{◌≡◌, ◌*◌, ◌≤◌, length};
ghost use Rattle.book.specs.Refusal.{first_of, number_of};
ghost use Rattle.probe_model.specs.Probe.{call_fault, call_fault_at, probe_fault};

use crate::listed::{kind_in, slot_in, value_in};
use answer::Refusal;
use book::{Limits, slots, values};
use reader::read;

// The longest list in bytes.
const MOST_BYTES: usize = 16384;

// What refuses: the book's refusal, 10, that of the first refused call, 9.
pub fn check(book: &[u8], limits: Limits, calls: &[u8], room: usize) -> Result<(), Refusal>
    ensures { number_of result ≡ probe_fault limits book.now calls.now room }
{
    read(book, limits)?;
    if calls.len() % 4 != 0 {
        return Err(Refusal::CallList);
    }
    if MOST_BYTES < calls.len() {
        return Err(Refusal::CallList);
    }
    let count = calls.len() / 4;
    check_calls(calls, count, slots(book), values(book))?;
    if room < count {
        return Err(Refusal::OutputTooShort);
    }
    Ok(())
}

// The refusal of the first of count calls that is refused.
fn check_calls(calls: &[u8], count: usize, n: usize, k: usize) -> Result<(), Refusal>
    requires { 4 * count ≤ length calls.now }
    ensures { number_of result ≡ first_of count (call_fault_at n k calls.now) }
{
    for i in 0..count {
        check_call(
            kind_in(calls, i),
            value_in(calls, i),
            slot_in(calls, i),
            n,
            k,
        )?;
    }
    Ok(())
}

// What refuses one call.
fn check_call(kind: usize, v: usize, slot: usize, n: usize, k: usize) -> Result<(), Refusal>
    ensures { number_of result ≡ call_fault n k kind v slot }
{
    if kind != 1 {
        return Err(Refusal::CallKind);
    }
    if n <= slot {
        return Err(Refusal::CallSlot);
    }
    if k <= v {
        return Err(Refusal::CallType);
    }
    Ok(())
}
