// What an entry answers: live, dead, or the refusal that comes first. `number_of` of specs/Answer.antt gives the number of a refusal, `word_of` that of
// an answer.
#![tactic(auto)]

ghost use Rattle.std.specs.Prelude.{◌≡◌, ℕ};
ghost use Rattle.answer.specs.Answer.{number_of, word_by};

// What an entry finds that refuses nothing.
#[derive(Clone, Copy, PartialEq, Eq)]
pub enum Verdict {
    Live,
    Dead,
}

// Why something lent is refused, by its number.
#[derive(Clone, Copy, PartialEq, Eq)]
pub enum Refusal {
    TooShort = 1,
    OutOfRange = 2,
    IdleType = 3,
    Layout = 4,
    Mask = 5,
    RowType = 6,
    RowEnd = 7,
    RowBound = 8,
    OutputTooShort = 9,
    CallList = 10,
    CallKind = 11,
    CallSlot = 12,
    CallType = 13,
    NoOpenMark = 14,
    WhileDead = 15,
    TooManyMarks = 16,
    Quoting = 17,
    Field = 18,
    TooManyRows = 19,
}

impl From<Refusal> for u32 {
    ghost from_gives = { λ refusal number. number ≡ number_of refusal };

    fn from(refusal: Refusal) -> u32 {
        refusal as u32
    }
}

// What an answer may tell a refusal by: the refusal, or any number of 8 bits.
pub trait Number: Copy {
    ghost number: { Self → ℕ };

    fn number(self) -> u8
        ensures { result ≡ number self };
}

impl Number for Refusal {
    ghost number = { number_of };

    fn number(self) -> u8 {
        self as u8
    }
}

impl Number for u8 {
    ghost number = { λ x. x };

    fn number(self) -> u8 {
        self
    }
}

// The number of an answer, as the exported entries return it: of a refusal, `word_of` of specs/Answer.antt. A function and no `From`: neither Result nor
// u32 is a type of this crate.
pub fn word<Told: Number>(answer: Result<Verdict, Told>) -> u32
    ensures { result ≡ word_by Told.number answer }
{
    match answer {
        Ok(Verdict::Live) => 0,
        Ok(Verdict::Dead) => 1,
        Err(told) => 256 + u32::from(told.number()),
    }
}
