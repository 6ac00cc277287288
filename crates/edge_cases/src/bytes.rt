// Books and call lists as bytes, by the layout of docs/SPECIFICATION.md. What would lie outside the array is left out, so that nothing here has a premise.

// The bytes of a book's header.
pub const HEADER: usize = 12;

// A row of a book.
#[derive(Clone, Copy)]
pub struct Row {
    pub value: u8,
    pub end: u16,
    pub lower: u16,
    pub upper: u16,
}

impl Row {
    fn to_bytes(self) -> [u8; 8] {
        let [e0, e1] = self.end.to_le_bytes();
        let [l0, l1] = self.lower.to_le_bytes();
        let [u0, u1] = self.upper.to_le_bytes();
        [self.value, 0, e0, e1, l0, l1, u0, u1]
    }
}

// A call of a list.
#[derive(Clone, Copy)]
pub struct Call {
    // a number and no enum, since the cases make calls of unknown kinds too
    pub kind: u8,
    pub value: u8,
    pub slot: u16,
}

impl Call {
    pub fn to_bytes(self) -> [u8; 4] {
        let [s0, s1] = self.slot.to_le_bytes();
        [self.kind, self.value, s0, s1]
    }
}

// The bytes at at.
pub fn put(a: &mut [u8], at: usize, bytes: &[u8]) {
    for (place, x) in a.iter_mut().skip(at).zip(bytes) {
        *place = *x;
    }
}

// The header of a book of n slots, k types and r rows.
pub fn put_header(book: &mut [u8], n: u16, k: u8, r: u16) {
    let masks = HEADER as u32;
    let rows = masks + 4 * u32::from(n);
    let end = rows + 8 * u32::from(r);
    let fields = [n, u16::from(k), r, short(masks), short(rows), short(end)];
    for (i, field) in fields.iter().enumerate() {
        put(book, 2 * i, &field.to_le_bytes());
    }
}

// n masks m.
pub fn put_masks(book: &mut [u8], n: u16, m: u32) {
    for s in 0..usize::from(n) {
        put(book, HEADER + 4 * s, &m.to_le_bytes());
    }
}

// Row i of a book of n slots.
pub fn put_row(book: &mut [u8], n: u16, i: u16, row: Row) {
    let at = HEADER + 4 * usize::from(n) + 8 * usize::from(i);
    put(book, at, &row.to_bytes());
}

// `byte` and `short` stay two: `as` goes to a type by its name, and no trait of std cuts a number short.

// The lowest 8 bits.
pub fn byte(x: u32) -> u8 {
    (x % 256) as u8
}

// The lowest 16 bits.
pub fn short(x: u32) -> u16 {
    (x % 65536) as u16
}
