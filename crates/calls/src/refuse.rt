// The refusal of a call: the numbers 11 to 16, asked in the machine's order.
// The contracts cite `Refuses` of `specs/Refuses.antt`; the smaller ones give the order for one kind of call.
ghost use Rattle.std.specs.Prelude.{◌≡◌, cond, eqb, leb};
ghost use Rattle.book.specs.Refusal.{number_of};
ghost use Rattle.calls.specs.Refuses.{Refuses};
ghost use Rattle.calls.specs.Given.{call_given};

use crate::Call;
use answer::Refusal;

// What refuses the call on a session with this flag and so many open marks, of `limit` that there may be.
#[tactic(auto, using(crate::proofs::RefusesLaws::refuses_calls))]
pub fn check_call(
    call: Call,
    dead: bool,
    marks: usize,
    limit: usize,
    n: usize,
    k: u32,
) -> Result<(), Refusal>
    ensures { Refuses n k limit marks dead (call_given call) (number_of result) }
{
    match call {
        Call::Unknown => Err(Refusal::CallKind),
        Call::Assign { slot, value } => decision(dead, slot, value, n, k),
        Call::Remove { slot, value } => decision(dead, slot, value, n, k),
        Call::Mark => new_mark(dead, marks, limit),
        Call::Back => open_mark(marks),
        Call::Show { slot } => known_slot(slot, n),
        Call::UpperWalls { value } => known_value(value, k),
        Call::LowerWalls { value } => known_value(value, k),
    }
}

// The slot is asked first, then the value, then the flag.
fn decision(dead: bool, slot: usize, v: u32, n: usize, k: u32) -> Result<(), Refusal>
    ensures { number_of result ≡ cond (leb n slot) 12 (cond (leb k v) 13 (cond dead 15 0)) }
{
    known_slot(slot, n)?;
    known_value(v, k)?;
    still_live(dead)
}

fn new_mark(dead: bool, marks: usize, limit: usize) -> Result<(), Refusal>
    ensures { number_of result ≡ cond dead 15 (cond (leb limit marks) 16 0) }
{
    still_live(dead)?;
    free_mark(marks, limit)
}

fn still_live(dead: bool) -> Result<(), Refusal>
    ensures { number_of result ≡ cond dead 15 0 }
{
    if dead {
        return Err(Refusal::WhileDead);
    }
    Ok(())
}

fn free_mark(marks: usize, limit: usize) -> Result<(), Refusal>
    ensures { number_of result ≡ cond (leb limit marks) 16 0 }
{
    if limit <= marks {
        return Err(Refusal::TooManyMarks);
    }
    Ok(())
}

fn open_mark(marks: usize) -> Result<(), Refusal>
    ensures { number_of result ≡ cond (eqb marks 0) 14 0 }
{
    if marks == 0 {
        return Err(Refusal::NoOpenMark);
    }
    Ok(())
}

fn known_slot(slot: usize, n: usize) -> Result<(), Refusal>
    ensures { number_of result ≡ cond (leb n slot) 12 0 }
{
    if n <= slot {
        return Err(Refusal::CallSlot);
    }
    Ok(())
}

fn known_value(v: u32, k: u32) -> Result<(), Refusal>
    ensures { number_of result ≡ cond (leb k v) 13 0 }
{
    if k <= v {
        return Err(Refusal::CallType);
    }
    Ok(())
}
