// The parts of a book, written. Nothing is refused: each function requires just the room that it writes to.
// The contracts cite book_bytes' `specs/BookBytes.antt`.
#![tactic(auto)]

ghost use Rattle.std.specs.Prelude.{◌≡◌, ◌+◌, ◌*◌, ◌-◌, ◌^◌, ◌<◌, ◌≤◌, length, replicate};
ghost use Rattle.std.proofs.lemmas.List.Edits.{sets};
ghost use Rattle.elements.specs.Elements.{bytes_of};
ghost use Rattle.book.specs.Layout as Layout;
ghost use Rattle.book_bytes.specs.BookBytes.{header_bytes, row_bytes, RowFits};

use book::{Row, mask_at, slots};
use elements::put;

// Writes the header of a book with n slots, k values, idle in byte 3 and r rows into the front of out.
pub fn write_header(out: &mut [u8], n: usize, k: usize, idle: usize, r: usize)
    requires { (12 ≤ length out.old) × (k < 256) × (idle < 256) × (12 + 4 * n + 8 * r < 65536) }
    ensures { out.new ≡ sets out.old 0 (header_bytes n k idle r) }
{
    put(out, 0, n as u16);
    out[2] = k as u8;
    out[3] = idle as u8;
    put(out, 4, r as u16);
    put(out, 6, 12u16);
    put(out, 8, (12 + 4 * n) as u16);
    put(out, 10, (12 + 4 * n + 8 * r) as u16);
}

// Writes n times the same mask behind the header.
pub fn fill_masks(out: &mut [u8], n: usize, mask: u32)
    requires { 12 + 4 * n ≤ length out.old }
    ensures { out.new ≡ sets out.old 12 (bytes_of 4 (replicate n mask)) }
{
    for s in 0..n {
        put(out, 12 + 4 * s, mask);
    }
}

// Writes the masks of book behind the header.
// A loop of its own beside `fill_masks`: one function over a rule for the masks would need a clause for what each call of the rule gives, and be no shorter.
pub fn write_masks(book: &[u8], out: &mut [u8])
    requires { (12 + 4 * Layout.slots book.now ≤ length book.now) × (12 + 4 * Layout.slots book.now ≤ length out.old) }
    ensures { out.new ≡ sets out.old 12 (bytes_of 4 (Layout.masks book.now)) }
{
    for s in 0..slots(book) {
        put(out, 12 + 4 * s, mask_at(book, s));
    }
}

// The mask of every value below k.
pub fn full_mask(k: usize) -> u32
    requires { k ≤ 32 }
    ensures { result ≡ 2 ^ k - 1 }
{
    let above: u64 = 1 << k;
    (above - 1) as u32
}

// Writes one row at a place.
pub fn put_row(out: &mut [u8], place: usize, row: Row)
    requires { (place + 8 ≤ length out.old) × RowFits row }
    ensures { out.new ≡ sets out.old place (row_bytes row) }
{
    out[place] = row.value as u8;
    out[place + 1] = row.reserved as u8;
    put(out, place + 2, row.end as u16);
    put(out, place + 4, row.lower as u16);
    put(out, place + 6, row.upper as u16);
}
