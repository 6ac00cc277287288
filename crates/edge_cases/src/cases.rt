// The book and the call list of a line, and the words that make them:
//   sample                         a book of 3 slots and 2 types, masks 3 3 3, with one row of type 0: end 2, lower 1, no upper
//   book n k r m                   a book of n slots, k types and r rows that are zeros, each mask m
//   row i type end lower upper     row i
//   grid r                         r rows of a book of 256 slots: row i is of type i % 32 and, for j = i / 32 + 1, has end 8j and upper j
//   put w i x                      x in w bytes (1, 2 or 4) at i
//   lend x                         only the first x bytes of the book are lent, or more than it has
//   call kind type slot            a call at the list's end
//   repeat c kind                  c calls of that kind there, with type 0 and slot 0
//   trim x                         only the first x bytes of the list are lent
ghost use Rattle.std.specs.Prelude.{◌≡◌, ◌<◌, length, replicate, take, MatchOption};

use crate::bytes::{Call, HEADER, Row, byte, put, put_header, put_masks, put_row, short};
use crate::scan::{Command, Line, Make, Step};

// The most slots and types of a book, and a row more than the most.
const SLOTS: u16 = 256;

const TYPES: u16 = 32;

const ROWS: usize = 1025;

// Room for the largest book with a row too many, and for one call more than the most.
const BOOK_BYTES: usize = HEADER + 4 * SLOTS as usize + 8 * ROWS;

const CALLS_BYTES: usize = 4 * 4097;

#[derive(Clone, Copy)]
pub struct Case {
    book: [u8; BOOK_BYTES],
    calls: [u8; CALLS_BYTES],
    // n of the book
    slots: u16,
    // bytes of the book that are lent
    length: usize,
    // bytes of the call list that are lent
    listed: usize,
}

impl Case {
    // Zeros, of which nothing is lent.
    pub fn blank() -> Case
        ensures bytes { (result.book ≡ replicate 9236 0) × (result.calls ≡ replicate 16388 0) }
        ensures numbers { (result.slots ≡ 0) × (result.length ≡ 0) × (result.listed ≡ 0) }
    {
        Case {
            book: [0; BOOK_BYTES],
            calls: [0; CALLS_BYTES],
            slots: 0,
            length: 0,
            listed: 0,
        }
    }

    // What the line's words make.
    pub fn build(line: Line<'_>) -> Case {
        let mut case = Case::blank();
        case.make(line);
        case
    }

    // Carries out each of the line's words that make, in place: a case is large, and is copied where it is returned.
    pub fn make(&mut self, line: Line<'_>)
        ensures { length line.entry.rest.now ≡ 0 → self.new ≡ self.old }
    {
        for step in line.steps() {
            self.apply(step);
        }
    }

    // The bytes of the book that are lent; None where it has fewer.
    pub fn book(&self) -> Option<&[u8]>
        ensures { MatchOption result (length self.now.book < self.now.length) (λ lent. lent.now ≡ take self.now.length self.now.book) }
    {
        self.book.get(..self.length)
    }

    // The bytes of the call list that are lent; None where it has fewer.
    pub fn calls(&self) -> Option<&[u8]>
        ensures { MatchOption result (length self.now.calls < self.now.listed) (λ lent. lent.now ≡ take self.now.listed self.now.calls) }
    {
        self.calls.get(..self.listed)
    }

    // Carries out the step's word, if it is one that makes.
    fn apply(&mut self, step: Step<'_>) {
        let Some(Command::Make(make)) = step.command() else {
            return;
        };
        match make {
            Make::Sample => self.sample(),
            Make::Book => self.new_book(step),
            Make::Row => self.row(step),
            Make::Grid => self.grid(short(step.number(1))),
            Make::Put => self.put(step),
            Make::Lend => self.length = step.number(1) as usize,
            Make::Call => self.call(step),
            Make::Repeat => self.repeat(step),
            Make::Trim => self.listed = step.number(1) as usize,
        }
    }

    fn sample(&mut self) {
        let row = Row {
            value: 0,
            end: 2,
            lower: 1,
            upper: 65535,
        };
        put_header(&mut self.book, 3, 2, 1);
        put_masks(&mut self.book, 3, 3);
        put_row(&mut self.book, 3, 0, row);
        self.slots = 3;
        self.length = 32;
    }

    fn new_book(&mut self, step: Step<'_>) {
        let n = short(step.number(1));
        let r = short(step.number(3));
        put_header(&mut self.book, n, byte(step.number(2)), r);
        put_masks(&mut self.book, n, step.number(4));
        self.slots = n;
        self.length = HEADER + 4 * usize::from(n) + 8 * usize::from(r);
    }

    fn row(&mut self, step: Step<'_>) {
        let row = Row {
            value: byte(step.number(2)),
            end: short(step.number(3)),
            lower: short(step.number(4)),
            upper: short(step.number(5)),
        };
        put_row(&mut self.book, self.slots, short(step.number(1)), row);
    }

    fn grid(&mut self, r: u16) {
        for i in 0..r {
            let j = i / TYPES + 1;
            let row = Row {
                value: (i % TYPES) as u8,
                end: 8 * j,
                lower: 0,
                upper: j,
            };
            put_row(&mut self.book, SLOTS, i, row);
        }
    }

    fn put(&mut self, step: Step<'_>) {
        let at = step.number(2) as usize;
        let bytes = step.number(3).to_le_bytes();
        match step.number(1) {
            1 => put(&mut self.book, at, &bytes[..1]),
            2 => put(&mut self.book, at, &bytes[..2]),
            _ => put(&mut self.book, at, &bytes),
        }
    }

    fn call(&mut self, step: Step<'_>) {
        self.push(Call {
            kind: byte(step.number(1)),
            value: byte(step.number(2)),
            slot: short(step.number(3)),
        });
    }

    fn repeat(&mut self, step: Step<'_>) {
        let call = Call {
            kind: byte(step.number(2)),
            value: 0,
            slot: 0,
        };
        for _ in 0..short(step.number(1)) {
            self.push(call);
        }
    }

    // A call at the list's end, or at the last multiple of 4 before it; the list's room is a multiple of 4 too, so a call lies in it whole or not at all.
    fn push(&mut self, call: Call) {
        let end = self.listed % 65536;
        let at = end / 4 * 4;
        if let Some(place) = self.calls.get_mut(at..at + 4) {
            place.copy_from_slice(&call.to_bytes());
        }
        self.listed = end + 4;
    }
}
