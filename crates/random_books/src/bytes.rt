// The bytes of books and call lists, little-endian. What there is no room for is left out.
ghost use Rattle.std.specs.Prelude.{◌≤◌};

// Room for a book of 31 slots and 64 rows, or for 512 calls.
const ROOM: usize = 2048;

// The bytes written, in order.
#[derive(Clone, Copy)]
pub struct Bytes {
    bytes: [u8; ROOM],
    count: usize,
    ghost within: { count ≤ 2048 },
}

impl Bytes {
    pub fn new() -> Bytes {
        Bytes {
            bytes: [0; ROOM],
            count: 0,
        }
    }

    pub fn as_slice(&self) -> &[u8] {
        &self.bytes[..self.count]
    }

    // Adds the lowest bytes of x, so many as the width says.
    pub fn put(&mut self, width: usize, x: usize) {
        for byte in x.to_le_bytes().iter().take(width) {
            if self.count < ROOM {
                self.bytes[self.count] = *byte;
                self.count += 1;
            }
        }
    }
}
