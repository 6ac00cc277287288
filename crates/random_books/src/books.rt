// Random books, around a hidden plan. A style says what a book is like.
use crate::bytes::Bytes;
use crate::random::Random;
use arrays::{Masks, Row, Rows, SLOTS, Size, alone};

// A book, and its number in the run.
#[derive(Clone, Copy)]
pub struct Book {
    pub number: usize,
    pub size: Size,
    // the idle type
    pub idle: Option<usize>,
    pub masks: Masks,
    pub rows: Rows,
}

// What a style of books is like.
#[derive(Clone, Copy)]
struct Style {
    // the longest stretch of one type in the plan
    stretch: usize,
    // in so many of eight cases a mask has a type that is not its own
    others: usize,
    // in so many of eight cases a mask's own type is not the plan's
    astray: usize,
    // the most rows
    rows: usize,
    // the farthest that a bound lies from the plan's count
    slack: usize,
    // in so many of eight cases a row has nothing to do with the plan
    strays: usize,
    // the rows have the last so many ends
    ends: usize,
}

// Tight bounds.
const TIGHT: Style = Style {
    stretch: 3,
    others: 8,
    astray: 0,
    rows: 24,
    slack: 0,
    strays: 0,
    ends: 32,
};

// Bounds near the plan.
const NEAR: Style = Style {
    stretch: 4,
    others: 8,
    astray: 0,
    rows: 24,
    slack: 1,
    strays: 0,
    ends: 32,
};

// Loose bounds.
const LOOSE: Style = Style {
    stretch: 6,
    others: 8,
    astray: 0,
    rows: 8,
    slack: 5,
    strays: 0,
    ends: 32,
};

// Masks of few types.
const THIN: Style = Style {
    stretch: 3,
    others: 4,
    astray: 0,
    rows: 20,
    slack: 2,
    strays: 0,
    ends: 32,
};

// Masks off the plan.
const OFF: Style = Style {
    stretch: 4,
    others: 2,
    astray: 4,
    rows: 16,
    slack: 1,
    strays: 0,
    ends: 32,
};

// Stray rows.
const STRAY: Style = Style {
    stretch: 3,
    others: 8,
    astray: 0,
    rows: 20,
    slack: 2,
    strays: 1,
    ends: 32,
};

// Rows of few ends.
const FEW_ENDS: Style = Style {
    stretch: 5,
    others: 6,
    astray: 0,
    rows: 60,
    slack: 2,
    strays: 0,
    ends: 3,
};

// Some of all.
const MIXED: Style = Style {
    stretch: 4,
    others: 5,
    astray: 1,
    rows: 12,
    slack: 3,
    strays: 1,
    ends: 32,
};

// The styles by turns, by the book's number.
const STYLES: [Style; 8] = [TIGHT, NEAR, LOOSE, THIN, OFF, STRAY, FEW_ENDS, MIXED];

// A book of the run.
pub fn make_book(random: &mut Random, number: usize) -> Book {
    let slots = random.below(24).saturating_add(1);
    let types = random.below(6).saturating_add(1);
    let size = Size { slots, types };
    let plan = Plan::draw(random, STYLES[number % 8], size);
    Book {
        number,
        size,
        idle: idle_type(number, types),
        masks: plan.draw_masks(random),
        rows: plan.draw_rows(random),
    }
}

// By turns no idle type and each of the types.
fn idle_type(number: usize, types: usize) -> Option<usize> {
    (number % (types % 32 + 1)).checked_sub(1)
}

// A hidden plan of a book: a type for each slot.
#[derive(Clone, Copy)]
struct Plan {
    style: Style,
    size: Size,
    types: [usize; SLOTS],
}

impl Plan {
    // A plan in stretches of one type.
    fn draw(random: &mut Random, style: Style, size: Size) -> Plan {
        let mut types = [0; SLOTS];
        let mut v = 0;
        let mut left = 0usize;
        for planned in types.iter_mut().take(size.slots) {
            if left == 0 {
                v = random.below(size.types);
                left = random.below(style.stretch).saturating_add(1);
            }
            *planned = v;
            left = left.saturating_sub(1);
        }
        Plan { style, size, types }
    }

    // For each slot the plan's type or another, and some more.
    fn draw_masks(&self, random: &mut Random) -> Masks {
        let mut masks = Masks::zeros();
        for (slot, planned) in self.types.iter().take(self.size.slots).enumerate() {
            let own = if random.in_eight(self.style.astray) {
                random.below(self.size.types)
            } else {
                *planned
            };
            masks.set_mask(slot, self.draw_mask(random, own));
        }
        masks
    }

    // A mask with type `own`, and each other type in so many of eight cases.
    fn draw_mask(&self, random: &mut Random, own: usize) -> u32 {
        let mut made = alone(own);
        for v in 0..self.size.types {
            if random.in_eight(self.style.others) {
                made |= alone(v);
            }
        }
        made
    }

    fn draw_rows(&self, random: &mut Random) -> Rows {
        let mut rows = Rows::new();
        for _ in 0..random.below(self.style.rows.saturating_add(1)) {
            rows.push(self.draw_row(random));
        }
        rows
    }

    // A row near the plan's count, or a stray one; one in four has no lower bound, and one in four no upper.
    fn draw_row(&self, random: &mut Random) -> Row {
        let slots = self.size.slots;
        let board_type = random.below(self.size.types);
        let end = slots.saturating_sub(random.below(slots.min(self.style.ends)));
        let slack = self.style.slack.saturating_add(1);
        let count = self.count(board_type, end);
        let mut lower = count.saturating_sub(random.below(slack));
        let mut upper = count.saturating_add(random.below(slack));
        if random.in_eight(self.style.strays) {
            lower = random.below(slots.saturating_add(1));
            upper = random.below(slots.saturating_add(1));
        }
        if random.in_eight(2) {
            lower = 0;
        }
        if random.in_eight(2) {
            upper = 65535;
        }
        Row {
            board_type,
            end,
            lower,
            upper,
        }
    }

    // How many of the plan's first `end` slots have type v.
    fn count(&self, v: usize, end: usize) -> usize {
        self.types
            .iter()
            .take(end)
            .filter(|planned| **planned == v)
            .count()
    }
}

impl Book {
    // The book as bytes.
    pub fn bytes(&self) -> Bytes {
        let slots = self.size.slots;
        let rows = self.rows.as_slice();
        let rows_at = 12 + slots % 32 * 4;
        let end = rows_at + rows.len() * 8;
        let mut bytes = Bytes::new();
        bytes.put(2, slots);
        bytes.put(1, self.size.types);
        bytes.put(1, self.idle.map_or(0, |v| v.saturating_add(1)));
        bytes.put(2, rows.len());
        bytes.put(2, 12);
        bytes.put(2, rows_at);
        bytes.put(2, end);
        for slot in 0..slots {
            bytes.put(4, self.masks.mask(slot) as usize);
        }
        for row in rows {
            bytes.put(2, row.board_type);
            bytes.put(2, row.end);
            bytes.put(2, row.lower);
            bytes.put(2, row.upper);
        }
        bytes
    }
}
