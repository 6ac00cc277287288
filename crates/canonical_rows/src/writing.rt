// The rows of a type, written one behind the other. Each function that writes rows returns the place behind them. The contracts cite canonical_model's
// `specs/CornerRows.antt` and `specs/Lines.antt`.
ghost use Rattle.std.specs.Prelude.{◌≡◌, cond, ◌+◌, ◌-◌, ◌*◌, ◌<◌, ◌≤◌, length};
ghost use Rattle.std.proofs.lemmas.List.Edits.{sets};
ghost use Rattle.closing_model.specs.Table.{view};
ghost use Rattle.book_bytes.specs.BookBytes.{order_row, row_bytes};
ghost use Rattle.canonical_model.specs.CornerRows.{corner_rows, line_rows};
ghost use Rattle.canonical_rows.specs.Lines.{line_in, Line, Lines, part_rows, RowsWritten};

use crate::counting::count_ends;
use crate::turns::{corner_at, turns};
use book::Row;
use book_bytes::put_row;
use stores::at;

// The lower, and the upper, of a row's side that has no corner.
const NO_LOWER: usize = 0;

const NO_UPPER: usize = 65535;

// So many ends are passed over at once where none of them is a corner.
const BLOCK: usize = 8;

// The bytes of a row.
const ROW: usize = 8;

// Writes the rows of type v.
pub fn write_line(
    lowers: &[u16],
    uppers: &[u16],
    n: usize,
    v: usize,
    out: &mut [u8],
    place: usize,
) -> usize
    requires { Lines n v lowers.now uppers.now × (place + 8 * length (line_rows n (view lowers.now uppers.now) v n) ≤ length out.old) }
    ensures { RowsWritten (line_rows n (view lowers.now uppers.now) v n) out.old place out.new result }
{
    let mut next = place;
    let mut t = 0;
    // A `while`, since the rest begins where it stops.
    while t + BLOCK < n {
        next = write_block(lowers, uppers, n, v, t, out, next);
        t += BLOCK;
    }
    write_rest(lowers, uppers, n, v, t, out, next)
}

// Writes the rows of type v at the eight ends after from.
fn write_block(
    lowers: &[u16],
    uppers: &[u16],
    n: usize,
    v: usize,
    from: usize,
    out: &mut [u8],
    place: usize,
) -> usize
    requires { Lines n v lowers.now uppers.now × (from + 8 < n)
        × (place + 8 * length (part_rows n (view lowers.now uppers.now) v from 8) ≤ length out.old) }
    ensures { RowsWritten (part_rows n (view lowers.now uppers.now) v from 8) out.old place out.new result }
{
    let found = count_ends(lowers, uppers, n, v, from, BLOCK);
    if found == 1 {
        let only = from + only_corner(lowers, uppers, n, v, from) as usize;
        return write_corner(lowers, uppers, n, v, only, out, place);
    }
    let end = place + ROW * found as usize;
    let mut next = place;
    let mut t = from;
    // A `while`, since it stops by the place, at the block's last corner, and not by the end.
    while next < end {
        t += 1;
        next = write_corner(lowers, uppers, n, v, t, out, next);
    }
    next
}

// Which of the eight ends after from is the only corner among them, counted from 1. No branch: most blocks with a corner have just one.
fn only_corner(lowers: &[u16], uppers: &[u16], n: usize, v: usize, from: usize) -> u16
    requires { Lines n v lowers.now uppers.now × (from + 8 < n) × (length (part_rows n (view lowers.now uppers.now) v from 8) ≡ 1) }
    ensures { (0 < result) × (result ≤ 8)
        × (part_rows n (view lowers.now uppers.now) v from 8
        ≡ corner_rows n (view lowers.now uppers.now) v (from + result)) }
{
    let p = v * (n + 1) + from;
    let mut sum: u16 = 0;
    for i in 0..BLOCK {
        sum += turns(lowers, uppers, p + i) * (i as u16 + 1);
    }
    sum
}

// Writes the rows of type v at the ends after from.
fn write_rest(
    lowers: &[u16],
    uppers: &[u16],
    n: usize,
    v: usize,
    from: usize,
    out: &mut [u8],
    place: usize,
) -> usize
    requires { Lines n v lowers.now uppers.now × (from ≤ n)
        × (place + 8 * length (part_rows n (view lowers.now uppers.now) v from (n - from)) ≤ length out.old) }
    ensures { RowsWritten (part_rows n (view lowers.now uppers.now) v from (n - from))
        out.old place out.new result }
{
    let mut next = place;
    for t in from..n {
        next = write_corner(lowers, uppers, n, v, t + 1, out, next);
    }
    next
}

// Writes the row of (v, t), where it is a corner.
fn write_corner(
    lowers: &[u16],
    uppers: &[u16],
    n: usize,
    v: usize,
    t: usize,
    out: &mut [u8],
    place: usize,
) -> usize
    requires { Lines n v lowers.now uppers.now × (0 < t) × (t ≤ n)
        × (place + 8 * length (corner_rows n (view lowers.now uppers.now) v t) ≤ length out.old) }
    ensures { RowsWritten (corner_rows n (view lowers.now uppers.now) v t) out.old place out.new result }
{
    let low = corner_at(lowers, n, v, true, t);
    let high = corner_at(uppers, n, v, false, t);
    if low || high {
        return write_row(lowers, uppers, n, v, t, low, high, out, place);
    }
    place
}

// Writes the row of (v, t), whose sides have a corner or not.
fn write_row(
    lowers: &[u16],
    uppers: &[u16],
    n: usize,
    v: usize,
    t: usize,
    low: bool,
    high: bool,
    out: &mut [u8],
    place: usize,
) -> usize
    requires { Lines n v lowers.now uppers.now × (t ≤ n) × (place + 8 ≤ length out.old) }
    ensures { (out.new ≡ sets out.old place
        (row_bytes (order_row v t (cond low (line_in lowers.now n v t) 0) (cond high (line_in uppers.now n v t) 65535))))
        × (result ≡ place + 8) }
{
    let row = Row {
        value: v,
        reserved: 0,
        end: t,
        lower: side(lowers, n, v, t, low, NO_LOWER),
        upper: side(uppers, n, v, t, high, NO_UPPER),
    };
    put_row(out, place, row);
    place + ROW
}

// The bound at (v, t) where it is a corner, else none.
fn side(s: &[u16], n: usize, v: usize, t: usize, corner: bool, none: usize) -> usize
    requires { Line n v s.now × (t ≤ n) × (none < 65536) }
    ensures { (result ≡ cond corner (line_in s.now n v t) none) × (result < 65536) }
{
    if corner {
        return at(s, v * (n + 1) + t);
    }
    none
}
