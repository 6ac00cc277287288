// The passes over the later records of a CSV text, from the place behind the first: one tests and counts them, one writes their rows.
// What the second requires is what the first has shown. The contracts cite csv_model's `specs/Import.antt` through `specs/Passes.antt`.
ghost use Rattle.std.specs.Prelude.{◌≡◌, ◌+◌, ◌*◌, ◌≤◌, length, drop};
ghost use Rattle.std.proofs.lemmas.List.Edits.{sets};
ghost use Rattle.book.specs.Lists.{All};
ghost use Rattle.book_bytes.specs.BookBytes.{rows_bytes, RowFits};
ghost use Rattle.csv_model.specs.Csv as Csv;
ghost use Rattle.csv_model.specs.Import.{records_fault, rows_of_all};
ghost use Rattle.csv_import.specs.Passes.{LaterOf};

use crate::Later;
use crate::records::{read_good, read_record};
use answer::Refusal;
use book::first_of;
use book_bytes::put_row;
use book_items::check_row;

// The fields of a later record.
const FIELDS: usize = 4;

// Tests every later record for 17, then 18, counts them, and tests their rows for n slots and k values.
pub fn test_later(text: &[u8], from: usize, n: usize, k: usize) -> Result<Later, Refusal>
    requires { from ≤ length text.now }
    ensures { LaterOf n k (Csv.later (drop from text.now)) result }
{
    let mut at = from;
    let mut rows = 0;
    let mut refused = Ok(());
    // A `while`, since only a record that is read says where the next begins.
    while at < text.len() {
        let read = read_good(text, at, FIELDS)?;
        refused = first_of(refused, check_row(read.tally.last, n, k));
        rows += 1;
        at = read.next;
    }
    Ok(Later { rows, refused })
}

// Writes the rows into out, one behind the other from a place.
pub fn write_rows(text: &[u8], from: usize, out: &mut [u8], first: usize)
    requires { (from ≤ length text.now) × (records_fault 4 (Csv.later (drop from text.now)) ≡ 0)
        × All RowFits (rows_of_all (Csv.later (drop from text.now)))
        × (first + 8 * length (rows_of_all (Csv.later (drop from text.now))) ≤ length out.old) }
    ensures { out.new ≡ sets out.old first (rows_bytes (rows_of_all (Csv.later (drop from text.now)))) }
{
    let mut at = from;
    let mut place = first;
    // A `while`, since only a record that is read says where the next begins.
    while at < text.len() {
        let read = read_record(text, at).unwrap();
        put_row(out, place, read.tally.last);
        place += 8;
        at = read.next;
    }
}
