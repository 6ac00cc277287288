// The exported entries: thin forms, for a host written in C or Rust. A slice crosses as a pointer and a length. Check, close, settle, session,
// probe, open, import and canonical have no premise: each takes every slice of every length, and answers 0 (live; of check and import: a good book), 1 (dead)
// or 256 + the number of a refusal. A step and a call rest on memory that an opening which was not refused, and what came after it, left. The contracts cite
// entries_model's `specs/Entries.antt` and `specs/Version.antt`, and kept_model's `specs/Kept.antt` and `specs/Entries.antt`.
#![tactic(auto)]

ghost use Rattle.std.specs.Prelude.{◌≡◌};
ghost use Rattle.session_model.specs.Calls.{call_of};
ghost use Rattle.entries_model.specs.Entries.{check_answer, CloseEntry, SettleEntry, SessionEntry, ImportEntry, ProbeEntry, CanonicalEntry};
ghost use Rattle.entries_model.specs.Version.{version};
ghost use Rattle.kept_model.specs.Entries.{OpenEntry, KeptSteps, KeptCalls};
ghost use Rattle.kept_model.specs.Kept.{Kept};
ghost use Rattle.kept_model.specs.Memory.{memory};

use answer::word;
use entries_model::FULL_LIMITS;
use kept::Words;

// The version of this part.
const MAJOR: u32 = 1;

const MINOR: u32 = 6;

const PATCH: u32 = 0;

// Whether book is a good book. Writes nothing, and never answers dead.
#[unsafe(no_mangle)]
pub extern "C" fn nested_gcc_check(book: &[u8]) -> u32
    ensures { result ≡ check_answer book.now }
{
    check_bytes::check(book)
}

// Closes the table of book: lowers, then uppers, value by value, 16 bits each.
#[unsafe(no_mangle)]
pub extern "C" fn nested_gcc_close(book: &[u8], lowers: &mut [u8], uppers: &mut [u8]) -> u32
    ensures { CloseEntry book.now lowers.old uppers.old result lowers.new uppers.new }
{
    close_bytes::close(book, lowers, uppers)
}

// Settles the masks of book, 32 bits each.
#[unsafe(no_mangle)]
pub extern "C" fn nested_gcc_settle(book: &[u8], masks: &mut [u8]) -> u32
    ensures { SettleEntry book.now masks.old result masks.new }
{
    settle_bytes::settle(book, masks)
}

// Runs a call list on a session of book: two words a call, and the last masks, 32 bits each.
#[unsafe(no_mangle)]
pub extern "C" fn nested_gcc_session(
    book: &[u8],
    calls: &[u8],
    answers: &mut [u8],
    masks: &mut [u8],
) -> u32
    ensures { SessionEntry book.now calls.now answers.old masks.old result answers.new masks.new }
{
    session_bytes::session(book, calls, answers, masks)
}

// Opens a session of book in lent memory, which then holds it: 256 masks, 16528 cells, 25088 bytes of trail, 256 heights, 7 numbers.
#[unsafe(no_mangle)]
pub extern "C" fn nested_gcc_open_in(
    book: &[u8],
    masks: &mut [u32],
    cells: &mut [u16],
    trail: &mut [u8],
    heights: &mut [u16],
    numbers: &mut [usize],
) -> u32
    ensures { OpenEntry book.now
        (memory masks.old cells.old trail.old heights.old numbers.old) result
        (memory masks.new cells.new trail.new heights.new numbers.new) }
{
    word(kept::open(book, masks, cells, trail, heights, numbers))
}

// Makes a list of calls on the session that the memory holds: two words a call.
#[unsafe(no_mangle)]
pub extern "C" fn nested_gcc_step_in(
    calls: &[u8],
    answers: &mut [u32],
    masks: &mut [u32],
    cells: &mut [u16],
    trail: &mut [u8],
    heights: &mut [u16],
    numbers: &mut [usize],
) -> u32
    requires { Kept (memory masks.old cells.old trail.old heights.old numbers.old) }
    ensures { KeptSteps calls.now answers.old
        (memory masks.old cells.old trail.old heights.old numbers.old) result
        answers.new (memory masks.new cells.new trail.new heights.new numbers.new) }
{
    word(kept::step(calls, answers, masks, cells, trail, heights, numbers))
}

// Makes one call on the session that the memory holds.
#[unsafe(no_mangle)]
pub extern "C" fn nested_gcc_call_in(
    kind: u32,
    value: u32,
    slot: u32,
    masks: &mut [u32],
    cells: &mut [u16],
    trail: &mut [u8],
    heights: &mut [u16],
    numbers: &mut [usize],
) -> Words
    requires { Kept (memory masks.old cells.old trail.old heights.old numbers.old) }
    ensures { KeptCalls (call_of kind value slot)
        (memory masks.old cells.old trail.old heights.old numbers.old) result.first result.second
        (memory masks.new cells.new trail.new heights.new numbers.new) }
{
    kept::call(kind, value, slot, masks, cells, trail, heights, numbers)
}

// Imports orders from CSV text: writes the book that text says into the front of book. Never answers dead.
#[unsafe(no_mangle)]
pub extern "C" fn nested_gcc_import_csv(text: &[u8], book: &mut [u8]) -> u32
    ensures { ImportEntry text.now book.old result book.new }
{
    word(csv_import::import_csv(text, book))
}

// Which assign calls of a list would die, each alone on the opened book: a byte a call, 1 for dead.
#[unsafe(no_mangle)]
pub extern "C" fn nested_gcc_probe(book: &[u8], calls: &[u8], dead: &mut [u8]) -> u32
    ensures { ProbeEntry book.now calls.now dead.old result dead.new }
{
    word(probe::probe(book, FULL_LIMITS, calls, dead))
}

// Writes the canonical book of book, a row for each corner of its closed table, into the front of out. Live and dead are those of closing alone.
#[unsafe(no_mangle)]
pub extern "C" fn nested_gcc_canonical(book: &[u8], out: &mut [u8]) -> u32
    ensures { CanonicalEntry book.now out.old result out.new }
{
    word(canonical::canonical(book, out))
}

// The version of this part in one number.
#[unsafe(no_mangle)]
pub extern "C" fn nested_gcc_version() -> u32
    ensures { result ≡ version }
{
    65536 * MAJOR + 256 * MINOR + PATCH
}
