// The rows of the canonical book (document 02, request six), from a table whose lines grow by 0 or 1 at each step: counted, and written, 8 bytes each, by type,
// then end. Nothing is refused: each function requires just the entries that it reads and the room that it writes to. The contracts cite canonical_model's
// `specs/CornerRows.antt` and `specs/Lines.antt`.
#![tactic(auto)]

mod counting; // counting.rt: how many rows there are
mod turns; // turns.rt: whether a line turns
mod writing; // writing.rt: the rows, written

ghost use Rattle.std.specs.Prelude.{◌≡◌, ◌+◌, ◌*◌, ◌≤◌, length};
ghost use Rattle.closing_model.specs.Table.{view};
ghost use Rattle.canonical_model.specs.CornerRows.{canonical_rows};
ghost use Rattle.canonical_rows.specs.Lines.{AllLines, RowsWritten};

// How many rows the corners of the first k types need.
pub fn count_rows(lowers: &[u16], uppers: &[u16], n: usize, k: usize) -> usize
    requires { AllLines n k lowers.now uppers.now }
    ensures { result ≡ length (canonical_rows n k (view lowers.now uppers.now)) }
{
    let mut count = 0;
    for v in 0..k {
        count += counting::count_line(lowers, uppers, n, v);
    }
    count
}

// Writes the rows of the first k types into out from place on. The place behind them.
pub fn write_rows(
    lowers: &[u16],
    uppers: &[u16],
    n: usize,
    k: usize,
    out: &mut [u8],
    place: usize,
) -> usize
    requires { AllLines n k lowers.now uppers.now × (place + 8 * length (canonical_rows n k (view lowers.now uppers.now)) ≤ length out.old) }
    ensures { RowsWritten (canonical_rows n k (view lowers.now uppers.now)) out.old place out.new result }
{
    let mut next = place;
    for v in 0..k {
        next = writing::write_line(lowers, uppers, n, v, out, next);
    }
    next
}
