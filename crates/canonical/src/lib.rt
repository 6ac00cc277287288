// The canonical book of a book: a row for each corner of its closed table. Every slice of every length gets an answer, and out is written only
// where the book is live, its rows are few enough and out has room for them. The contracts cite `specs/Archive.antt`, canonical_model's
// `specs/Canonical.antt`, and that of the entry entries_model's `specs/Entries.antt`.
#![tactic(auto)]

ghost use Rattle.std.specs.Prelude.{◌≡◌, length};
ghost use Rattle.std.proofs.Math.Option.{some};
ghost use Rattle.std.proofs.lemmas.List.Edits.{sets};
ghost use Rattle.answer.specs.Answer.{word_of};
ghost use Rattle.book_bytes.specs.BookBytes.{LimitsFit};
ghost use Rattle.closing_model.specs.Table.{view};
ghost use Rattle.settling_model.specs.Book.{closed_book};
ghost use Rattle.canonical_model.specs.Canonical.{canonical_book, archive_of, canonical_of, Canonises};
ghost use Rattle.entries_model.specs.Entries.{CanonicalEntry};
ghost use Rattle.canonical.specs.Archive.{TableRoom, ClosedTable, BookRoom};

use answer::{Refusal, Verdict};
use book::{Limits, idle, slots, values};
use book_bytes::{write_header, write_masks};
use canonical_rows::{count_rows, write_rows};
use closing::{close_exactly, table_size};
use entries_model::FULL_LIMITS;
use reader::read;

// Room for the lowers, or the uppers, of 256 slots and 32 types; here and not shared, as tools/closing_arrays.py looks for it.
const TABLE: usize = 8224;

// Writes the canonical book of book into the front of out.
pub fn canonical(book: &[u8], out: &mut [u8]) -> Result<Verdict, Refusal>
    ensures { CanonicalEntry book.now out.old (word_of result) out.new }
{
    archive(book, FULL_LIMITS, out)
}

// The same within limits.
fn archive(book: &[u8], limits: Limits, out: &mut [u8]) -> Result<Verdict, Refusal>
    requires { LimitsFit limits }
    ensures { Canonises (canonical_of limits book.now (length out.old)) (word_of result) out.old out.new }
{
    read(book, limits)?;
    let mut lowers = [0u16; TABLE];
    let mut uppers = [0u16; TABLE];
    let m = table_size(book);
    close_and_archive(book, limits, &mut lowers[..m], &mut uppers[..m], out)
}

// The same of a good book, with a table that has just the room for it.
fn close_and_archive(
    book: &[u8],
    limits: Limits,
    lowers: &mut [u16],
    uppers: &mut [u16],
    out: &mut [u8],
) -> Result<Verdict, Refusal>
    requires { LimitsFit limits × TableRoom book.now lowers.old uppers.old }
    ensures { Canonises (archive_of limits book.now (length out.old) (closed_book book.now)) (word_of result)
        out.old out.new }
{
    match close_exactly(book, lowers, uppers) {
        Verdict::Live => archive_table(book, limits, lowers, uppers, out),
        Verdict::Dead => Ok(Verdict::Dead),
    }
}

// The same of a book that closes to the table.
fn archive_table(
    book: &[u8],
    limits: Limits,
    lowers: &[u16],
    uppers: &[u16],
    out: &mut [u8],
) -> Result<Verdict, Refusal>
    requires { LimitsFit limits × ClosedTable book.now lowers.now uppers.now }
    ensures { Canonises (archive_of limits book.now (length out.old) (some (lowers.now, uppers.now))) (word_of result)
        out.old out.new }
{
    let n = slots(book);
    let k = values(book);
    let r = count_rows(lowers, uppers, n, k);
    if limits.rows < r {
        return Err(Refusal::TooManyRows);
    }
    if out.len() < 12 + 4 * n + 8 * r {
        return Err(Refusal::OutputTooShort);
    }
    write_book(book, lowers, uppers, r, out);
    Ok(Verdict::Live)
}

// Writes the canonical book of a book that closes to the table, and needs r rows.
fn write_book(book: &[u8], lowers: &[u16], uppers: &[u16], r: usize, out: &mut [u8])
    requires { ClosedTable book.now lowers.now uppers.now × BookRoom book.now lowers.now uppers.now r out.old }
    ensures { out.new ≡ sets out.old 0 (canonical_book book.now (view lowers.now uppers.now)) }
{
    let n = slots(book);
    let k = values(book);
    write_header(out, n, k, idle(book), r);
    write_masks(book, out);
    write_rows(lowers, uppers, n, k, out, 12 + 4 * n);
}
