// Order books: where the parts of one stand among its bytes, and what the tests of one say: nothing, or the refusal that comes first.
// The contracts cite `specs/Layout.antt` in the module layout, `specs/Refusal.antt` here.
#![tactic(auto)]

mod layout; // layout.rt: the numbers, masks and rows at their places

ghost use Rattle.std.specs.Prelude.{◌≡◌, ℕ, eqb};
ghost use Rattle.book.specs.Refusal.{number_of, ◌or_else◌};

use answer::Refusal;
pub use layout::{byte, idle, mask_at, read16, row_at, row_count, rows, slots, values};

// The largest book that a reader takes.
#[derive(Clone, Copy)]
pub struct Limits {
    pub slots: usize,
    pub values: usize,
    pub rows: usize,
}

// One row: value stands at least lower and at most upper times among the first end slots.
#[derive(Clone, Copy)]
pub struct Row {
    pub value: usize,
    pub reserved: usize,
    pub end: usize,
    pub lower: usize,
    pub upper: usize,
}

// What a test says: a result, or its number alone, 0 where it refuses nothing.
pub trait Said: Copy {
    ghost number: { Self → ℕ };

    // Whether it refuses nothing.
    fn is_none(self) -> bool
        ensures { result ≡ eqb (number self) 0 };
}

impl Said for Result<(), Refusal> {
    ghost number = { number_of };

    fn is_none(self) -> bool {
        self.is_ok()
    }
}

impl Said for u8 {
    ghost number = { λ x. x };

    fn is_none(self) -> bool {
        self == 0
    }
}

// What two tests say, of which the first is asked first: its refusal, else what the second says.
pub fn first_of<Test: Said>(first: Test, second: Test) -> Test
    ensures { Test.number result ≡ Test.number first or_else Test.number second }
{
    if first.is_none() {
        return second;
    }
    first
}
