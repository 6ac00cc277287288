// One record of a CSV text: its fields are read to its end, and what the numbers 17 and 18 ask of it and the row that it says are kept.
// The contracts cite csv_model's `specs/Csv.antt` and `specs/Import.antt` through `specs/Read.antt`.
ghost use Rattle.std.specs.Prelude.{◌≡◌, ◌<◌, ◌≤◌, length, drop};
ghost use Rattle.book.specs.Refusal.{number_of};
ghost use Rattle.csv_model.specs.Csv.{record_of};
ghost use Rattle.csv_model.specs.Import as Import;
ghost use Rattle.book_bytes.specs.BookBytes.{order_row};
ghost use Rattle.csv_import.specs.Read.{no_fields, added, fields_fault, GoodOf, ReadOf};

use crate::fields::field;
use crate::{DIGITS_MOST, Read, Tally};
use answer::Refusal;
use book::Row;
use csv_model::Figure;

// The place of the upper in a later record.
const UPPER: usize = 3;

// The upper of a row that has none.
const NO_UPPER: usize = 65535;

// The record that begins at a place, which is to have some fields: refused by 17 or 18.
pub fn read_good(text: &[u8], from: usize, fields: usize) -> Result<Read, Refusal>
    requires { from ≤ length text.now }
    ensures { GoodOf fields (record_of (drop from text.now)) text.now result }
{
    let read = read_record(text, from)?;
    check_fields(read.tally, fields)?;
    Ok(read)
}

// The record that begins at a place: refused by 17.
#[tactic(auto, using(crate::proofs::RecordLaws::counting_broken))]
pub fn read_record(text: &[u8], from: usize) -> Result<Read, Refusal>
    requires { from ≤ length text.now }
    ensures { ReadOf (record_of (drop from text.now)) text.now result }
{
    let mut at = from;
    let mut tally = no_fields();
    // a `loop`: only a field that is read says whether another follows, and where
    loop {
        let part = field(text, at)?;
        tally = add(tally, part.figure);
        if part.last {
            return Ok(Read {
                tally,
                next: part.next,
            });
        }
        at = part.next;
    }
}

// Whether there are so many fields, and each is good at its place: refused by 18.
fn check_fields(tally: Tally, fields: usize) -> Result<(), Refusal>
    ensures { number_of result ≡ fields_fault fields tally }
{
    if tally.count != fields || tally.bad {
        return Err(Refusal::Field);
    }
    Ok(())
}

fn no_fields() -> Tally
    ensures { result ≡ no_fields }
{
    Tally {
        count: 0,
        bad: false,
        last: order_row(0, 0, 0, 0),
    }
}

// One field more.
fn add(tally: Tally, figure: Figure) -> Tally
    requires { tally.count < 9223372036854775808 }
    ensures { result ≡ added tally figure }
{
    let row = tally.last;
    Tally {
        count: tally.count + 1,
        bad: bad_field(tally.count, figure) || tally.bad,
        last: order_row(row.end, row.lower, row.upper, said(figure)),
    }
}

// The row that orders a type by an end.
fn order_row(value: usize, end: usize, lower: usize, upper: usize) -> Row
    ensures { result ≡ order_row value end lower upper }
{
    Row {
        value,
        reserved: 0,
        end,
        lower,
        upper,
    }
}

// Whether the field at a place of its record is no number: the upper, at place 3, may be empty.
fn bad_field(place: usize, figure: Figure) -> bool
    ensures { result ≡ Import.bad_field place figure }
{
    if figure.count == 0 {
        return place != UPPER;
    }
    DIGITS_MOST < figure.count
}

// The number that a field says: none, 65535, where it is empty.
fn said(figure: Figure) -> usize
    ensures { result ≡ Import.said figure }
{
    if figure.count == 0 {
        return NO_UPPER;
    }
    figure.value
}
