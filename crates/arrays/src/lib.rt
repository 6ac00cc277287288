// The sizes, rows, tables, lists of masks and the pile of saved masks of small books, of fixed length: for the plain filter and the random books of
// the tests. The contracts say nothing, so it is proved to be safe and to end, and no more. Nothing is refused but a mark more than the pile holds:
// what lies outside a table or a list reads as 0, and a store there does nothing.
#![tactic(auto)]

ghost use Rattle.std.specs.Prelude.{◌≤◌};

// The types of a table.
pub const TYPES: usize = 8;
// The ends of one type, 0 to 31.
pub const ENDS: usize = 32;
// The slots of a list of masks.
pub const SLOTS: usize = 32;
// The most rows.
const ROWS: usize = 64;
// The most marks that may be open.
const MARKS: usize = 256;

// A book's counts of slots and types.
#[derive(Clone, Copy)]
pub struct Size {
    pub slots: usize,
    pub types: usize,
}

impl Size {
    // How many of the book's types a table has.
    pub fn table_types(self) -> usize {
        self.types.min(TYPES)
    }

    // How many of the book's ends, from 0 to the number of slots, a table has.
    pub fn table_ends(self) -> usize {
        self.slots.saturating_add(1).min(ENDS)
    }
}

// A row of a book: from lower to upper slots before the end have the type.
#[derive(Clone, Copy)]
pub struct Row {
    pub board_type: usize,
    pub end: usize,
    pub lower: usize,
    pub upper: usize,
}

// At most 64 rows.
#[derive(Clone, Copy)]
pub struct Rows {
    rows: [Row; ROWS],
    count: usize,
    ghost within: { count ≤ 64 },
}

impl Rows {
    // No rows.
    pub fn new() -> Rows {
        let empty = Row {
            board_type: 0,
            end: 0,
            lower: 0,
            upper: 0,
        };
        Rows {
            rows: [empty; ROWS],
            count: 0,
        }
    }

    // Adds a row; where there is no room, it does nothing.
    pub fn push(&mut self, row: Row) {
        if self.count < ROWS {
            self.rows[self.count] = row;
            self.count += 1;
        }
    }

    pub fn as_slice(&self) -> &[Row] {
        &self.rows[..self.count]
    }
}

// For each of 8 types and each end from 0 to 31 an entry. Type and end are two parameters and no struct: the rules step the end alone.
#[derive(Clone, Copy)]
pub struct Table {
    entries: [[usize; ENDS]; TYPES],
}

impl Table {
    pub fn zeros() -> Table {
        Table {
            entries: [[0; ENDS]; TYPES],
        }
    }

    // The entry of type v at end t. The index is tested here, and not by get, since must-fail/one_number_short.edit is about this test.
    pub fn entry(&self, v: usize, t: usize) -> usize {
        if v < TYPES && t < ENDS {
            self.entries[v][t]
        } else {
            0
        }
    }

    // Sets the entry of type v at end t.
    pub fn set_entry(&mut self, v: usize, t: usize, x: usize) {
        if v < TYPES && t < ENDS {
            self.entries[v][t] = x;
        }
    }
}

// The masks of 32 slots.
#[derive(Clone, Copy)]
pub struct Masks {
    masks: [u32; SLOTS],
}

impl Masks {
    // Masks without a type.
    pub fn zeros() -> Masks {
        Masks { masks: [0; SLOTS] }
    }

    // The mask of a slot.
    pub fn mask(&self, slot: usize) -> u32 {
        self.masks.get(slot).copied().unwrap_or(0)
    }

    // Sets the mask of a slot.
    pub fn set_mask(&mut self, slot: usize, x: u32) {
        if let Some(mask) = self.masks.get_mut(slot) {
            *mask = x;
        }
    }

    // How many of the first n slots have a mask that passes the test.
    pub fn count<F: Fn(u32) -> bool>(&self, n: usize, test: F) -> usize
        requires { F.IsAlwaysCallable test }
    {
        self.masks
            .iter()
            .take(n)
            .filter(|mask| test(**mask))
            .count()
    }

    // The ones in the masks of n slots.
    pub fn ones(&self, n: usize) -> usize {
        self.masks.iter().take(n).fold(0usize, |sum, mask| {
            sum.saturating_add(mask.count_ones() as usize)
        })
    }
}

// The pile has no room for a mark.
#[derive(Debug, Clone, Copy, PartialEq, Eq)]
pub struct Full;

// The masks that each open mark saved, at most 256 of them.
#[derive(Clone, Copy)]
pub struct Pile {
    saved: [Masks; MARKS],
    open: usize,
}

impl Pile {
    // No mark is open.
    pub fn new() -> Pile {
        Pile {
            saved: [Masks::zeros(); MARKS],
            open: 0,
        }
    }

    // Puts masks on the pile.
    pub fn push(&mut self, masks: Masks) -> Result<(), Full> {
        let free = self.saved.get_mut(self.open).ok_or(Full)?;
        *free = masks;
        self.open += 1;
        Ok(())
    }

    // Takes the latest masks from the pile.
    pub fn pop(&mut self) -> Option<Masks> {
        self.open = self.open.checked_sub(1)?;
        self.saved.get(self.open).copied()
    }
}

// The mask of type v alone.
pub fn alone(v: usize) -> u32 {
    if v < 32 { 1 << v } else { 0 }
}

// Whether type v is in the mask.
pub fn has(mask: u32, v: usize) -> bool {
    mask & alone(v) != 0
}

// Whether v is the mask's only type.
pub fn fixed(mask: u32, v: usize) -> bool {
    mask == alone(v)
}
