// What each call but a decision does to a session on the segment engine, where no number refuses it: as the plain machine of session_model does.
// The contracts cite `specs/Given.antt`, `specs/Represents.antt` and `specs/Answers.antt`.
#![tactic(auto)]

mod act; // act.rt: what each call but a decision does
mod flags; // flags.rt: the flags in a standing

pub use act::{back, mark, show, walls};
pub use flags::{is_dead, is_shut};

// How a session stands: live, dead since the call of that number, counted from 0, or opened dead. The order is that of the numbers which stand for them in
// the record of a kept session.
#[derive(Clone, Copy)]
pub enum Standing {
    Live,
    Dead(usize),
    OpenedDead,
}

#[derive(Clone, Copy)]
pub struct Session {
    pub standing: Standing,
    // the trail's height
    pub top: usize,
    // how many marks are open; so many of the heights are theirs
    pub marks: usize,
    // the book's byte 3: 0 where no value is idle, else that value plus 1
    pub idle: usize,
}

// What one call makes of a session, and its two words.
#[derive(Clone, Copy)]
pub struct Stepped {
    pub session: Session,
    pub first: u32,
    pub second: u32,
}
