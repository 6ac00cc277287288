// The parts of a book, each read at its place. Nothing is refused here: each function requires just the bytes that it reads.
// The contracts cite `specs/Layout.antt`.
ghost use Rattle.std.specs.Prelude.{◌≡◌, ◌+◌, ◌*◌, ◌<◌, ◌≤◌, length, get_or};
ghost use Rattle.book.specs.Layout as Layout;
ghost use Rattle.book.specs.Layout.{word16, word32, row_count, mask_at, rows_part, row_at};

use crate::Row;

// n: how many slots the header gives.
pub fn slots(book: &[u8]) -> usize
    requires { 12 ≤ length book.now }
    ensures { (result ≡ Layout.slots book.now) × (result < 65536) }
{
    read16(book, 0)
}

// k: how many values (document 01: types) the header gives.
pub fn values(book: &[u8]) -> usize
    requires { 12 ≤ length book.now }
    ensures { (result ≡ Layout.values book.now) × (result < 256) }
{
    byte(book, 2)
}

// Byte 3: 0 where no value is idle, else that value plus 1.
pub fn idle(book: &[u8]) -> usize
    requires { 12 ≤ length book.now }
    ensures { (result ≡ Layout.idle book.now) × (result < 256) }
{
    byte(book, 3)
}

// r: how many rows the header gives.
pub fn row_count(book: &[u8]) -> usize
    requires { 12 ≤ length book.now }
    ensures { (result ≡ row_count book.now) × (result < 65536) }
{
    read16(book, 4)
}

// The mask of slot s.
pub fn mask_at(book: &[u8], s: usize) -> u32
    requires { 12 + 4 * s + 4 ≤ length book.now }
    ensures { result ≡ mask_at book.now s }
{
    read32(book, 12 + 4 * s)
}

// The part of book from its rows to its end.
pub fn rows(book: &[u8]) -> &[u8]
    requires { 12 + 4 * Layout.slots book.now ≤ length book.now }
    ensures { result.now ≡ rows_part book.now }
{
    let at = 12 + 4 * slots(book);
    &book[at..]
}

// Row i of such a part.
pub fn row_at(rows: &[u8], i: usize) -> Row
    requires { 8 * i + 8 ≤ length rows.now }
    ensures { result ≡ row_at rows.now i }
{
    let at = 8 * i;
    Row {
        value: byte(rows, at),
        reserved: byte(rows, at + 1),
        end: read16(rows, at + 2),
        lower: read16(rows, at + 4),
        upper: read16(rows, at + 6),
    }
}

// The number at place i, of one byte.
pub fn byte(s: &[u8], i: usize) -> usize
    requires { i < length s.now }
    ensures { (result ≡ get_or s.now i 0) × (result < 256) }
{
    s[i] as usize
}

// The number at place i, of two bytes.
pub fn read16(s: &[u8], i: usize) -> usize
    requires { i + 1 < length s.now }
    ensures { (result ≡ word16 s.now i) × (result < 65536) }
{
    byte(s, i) + 256 * byte(s, i + 1)
}

// The number at place i, of four bytes.
fn read32(s: &[u8], i: usize) -> u32
    requires { i + 3 < length s.now }
    ensures { result ≡ word32 s.now i }
{
    (read16(s, i) + 65536 * read16(s, i + 2)) as u32
}
