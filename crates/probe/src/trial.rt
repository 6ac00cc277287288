// Assignments tried on one opened book, each taken back before the next. The contracts cite `specs/Trial.antt`.
ghost use Rattle.std.specs.Prelude.{◌≡◌, ◌++◌, ◌≤◌, length, drop, replicate};
ghost use Rattle.probe.specs.Trial.{Trying, Tried, AllTrying, AllTried};

use crate::listed::{slot_in, value_in};
use filling::fill;
use filter::fix;
use outcomes::{height, is_dead};
use undoing::undo;

// The byte of a call whose assignment dies, and of one whose assignment lives: numbers, since they are what a host in C reads.
const DIES: u8 = 1;

const LIVES: u8 = 0;

// Writes, for each call, whether its assignment dies, into the front of dead.
pub fn try_all(
    calls: &[u8],
    dead: &mut [u8],
    masks: &mut [u32],
    cells: &mut [u16],
    trail: &mut [u8],
    n: usize,
    k: u32,
    top: usize,
)
    requires { AllTrying calls.now dead.old masks.old cells.old trail.old n k top }
    ensures { AllTried calls.now n k masks.old cells.old dead.old dead.new }
{
    // by the calls' numbers: a call is four bytes of the list
    for i in 0..calls.len() / 4 {
        let slot = slot_in(calls, i);
        let v = value_in(calls, i) as u32;
        dead[i] = try_one(masks, cells, trail, n, k, top, slot, v);
    }
}

// The byte of the assignment of v to the slot. What it struck is taken back.
fn try_one(
    masks: &mut [u32],
    cells: &mut [u16],
    trail: &mut [u8],
    n: usize,
    k: u32,
    top: usize,
    slot: usize,
    v: u32,
) -> u8
    requires { Trying masks.old cells.old trail.old n k top slot v }
    ensures { Tried n k slot v masks.old cells.old masks.new cells.new result }
{
    let code = fix(masks, cells, trail, n, k, top, slot, v);
    undo(masks, cells, trail, n, k, top, height(code));
    if is_dead(code) {
        return DIES;
    }
    LIVES
}

// Writes the byte of a call that dies into the first count places of dead.
pub fn fill_dead(dead: &mut [u8], count: usize)
    requires { count ≤ length dead.old }
    ensures { dead.new ≡ replicate count 1 ++ drop count dead.old }
{
    fill(&mut dead[..count], DIES);
}
