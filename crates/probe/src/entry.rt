// The book is opened once; each call is tried on it and taken back. The contracts cite probe_model's `specs/Probe.antt` and `specs/Ready.antt`.
ghost use Rattle.std.specs.Prelude.{Ok};
ghost use Rattle.answer.specs.Answer.{word_of};
ghost use Rattle.settle_fault.specs.Ready.{Capacity};
ghost use Rattle.probe_model.specs.Probe.{Probes, ProbesGood};
ghost use Rattle.probe.specs.Ready.{ProbeReady, ProbeRoom};

use crate::fault::check;
use crate::trial::{fill_dead, try_all};
use answer::{Refusal, Verdict};
use book::{Limits, slots, values};
use book_opening::{CELLS, MASKS, PREFIXES, TRAIL, open_book};
use outcomes::Outcome;

// Writes a byte for each call into the front of dead: 1 where that assignment alone, on the opened book, is answered dead.
pub fn probe(book: &[u8], limits: Limits, calls: &[u8], dead: &mut [u8]) -> Result<Verdict, Refusal>
    requires { Capacity limits }
    ensures { Probes limits book.now calls.now dead.old (word_of result) dead.new }
{
    check(book, limits, calls, dead.len())?;
    let n = slots(book);
    let mut masks = [0u32; MASKS];
    Ok(probe_exactly(book, calls, dead, &mut masks[..n]))
}

// The same for a good book and an accepted list, with masks that have just the room for the slots.
fn probe_exactly(book: &[u8], calls: &[u8], dead: &mut [u8], masks: &mut [u32]) -> Verdict
    requires { ProbeReady book.now calls.now dead.old masks.old }
    ensures { ProbesGood book.now calls.now dead.old (word_of (Ok result)) dead.new }
{
    let mut cells = [0u16; CELLS];
    let mut trail = [0u8; TRAIL];
    let mut lowers = [0u32; PREFIXES];
    let mut uppers = [0u32; PREFIXES];
    probe_opened(
        book,
        calls,
        dead,
        masks,
        &mut cells,
        &mut trail,
        &mut lowers,
        &mut uppers,
    )
}

// Opens the book in the slices lent for it, and tries each call on it. Whether it opens live or dead.
fn probe_opened(
    book: &[u8],
    calls: &[u8],
    dead: &mut [u8],
    masks: &mut [u32],
    cells: &mut [u16],
    trail: &mut [u8],
    lowers: &mut [u32],
    uppers: &mut [u32],
) -> Verdict
    requires { ProbeRoom book.now calls.now dead.old masks.old cells.old trail.old lowers.old uppers.old }
    ensures { ProbesGood book.now calls.now dead.old (word_of (Ok result)) dead.new }
{
    let n = slots(book);
    let k = values(book) as u32;
    let outcome = open_book(book, masks, cells, trail, lowers, uppers);
    match outcome {
        Outcome::Live(h) => {
            try_all(calls, dead, masks, cells, trail, n, k, h);
            Verdict::Live
        }
        Outcome::Dead(_) => {
            fill_dead(dead, calls.len() / 4);
            Verdict::Dead
        }
    }
}
