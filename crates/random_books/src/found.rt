// What the engine wrote into filled arrays, compared with what the plain filter says.
use crate::counts::{Counts, Difference, Step};
use arrays::{Masks, SLOTS, Size, Table};

// What is there before the engine writes: no bound, mask, or word of a call.
pub const FILL16: u16 = 43981;

pub const FILL32: u32 = 2882343476;

// The comparison of the results of one step of a book.
#[derive(Drop)]
pub struct Comparison<'a> {
    book: usize,
    step: Step,
    counts: &'a mut Counts,
}

impl<'a> Comparison<'a> {
    pub fn new(book: usize, step: Step, counts: &'a mut Counts) -> Comparison<'a> {
        Comparison { book, step, counts }
    }

    // Counts a difference where the engine's x is not the plain filter's y.
    pub fn same(&mut self, place: usize, x: usize, y: usize) {
        if x != y {
            self.counts.differ(Difference {
                book: self.book,
                step: self.step,
                place,
            });
        }
    }

    // The engine's table has the plain one's entries type by type, and then what was there.
    pub fn same_table(&mut self, size: Size, found: &[u16; 256], table: &Table) {
        let ends = size.slots % 256 + 1;
        for (p, x) in found.iter().enumerate() {
            let v = p / ends;
            let wanted = if v < size.types {
                table.entry(v, p % ends)
            } else {
                usize::from(FILL16)
            };
            self.same(p, usize::from(*x), wanted);
        }
    }

    // The engine's masks are the plain ones, and then what was there.
    pub fn same_masks(&mut self, size: Size, found: &[u32; SLOTS], masks: &Masks) {
        for (slot, x) in found.iter().enumerate() {
            let wanted = if slot < size.slots {
                masks.mask(slot)
            } else {
                FILL32
            };
            self.same(slot, *x as usize, wanted as usize);
        }
    }

    // The engine's two words of call i are those.
    pub fn same_words(&mut self, i: usize, found: [u32; 2], words: [u32; 2]) {
        for (x, y) in found.into_iter().zip(words) {
            self.same(i, x as usize, y as usize);
        }
    }
}
