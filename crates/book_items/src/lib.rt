// The tests of one mask and of one row: what the numbers 5, and 6 to 8, refuse.
// The contracts cite book's `specs/Refusal.antt`.
#![tactic(auto)]

ghost use Rattle.std.specs.Prelude.{◌≡◌, eqb};
ghost use Rattle.book.specs.Refusal.{mask_fault, row_fault, number_of};

use answer::Refusal;
use book::Row;

// No more than this is a lower, or an upper that binds.
const MOST_BOUND: usize = 256;

// The upper of a row that has no upper bound.
const NO_UPPER: usize = 65535;

// Whether mask m has a value, and none from k up.
pub fn mask_fits(m: u32, k: usize) -> bool
    ensures { result ≡ eqb (mask_fault k m) 0 }
{
    if m == 0 {
        return false;
    }
    if 32 <= k {
        return true;
    }
    m >> k == 0
}

// Numbers 6 to 8 of one row, for n slots and k values.
pub fn check_row(row: Row, n: usize, k: usize) -> Result<(), Refusal>
    ensures { number_of result ≡ row_fault n k row }
{
    if k <= row.value || row.reserved != 0 {
        return Err(Refusal::RowType);
    }
    if row.end == 0 || n < row.end {
        return Err(Refusal::RowEnd);
    }
    if MOST_BOUND < row.lower {
        return Err(Refusal::RowBound);
    }
    if MOST_BOUND < row.upper && row.upper != NO_UPPER {
        return Err(Refusal::RowBound);
    }
    Ok(())
}
