// The plain machine of sessions: masks M, a dead flag and a pile of saved masks, call by call, with the refusals 11 to 16. Each decision
// settles the cut masks anew.
use crate::Stop;
use crate::lists::{possible, settle};
use crate::tables::Bounds;
use crate::walls::{Corners, Side};
use arrays::{Full, Masks, Pile, Size, alone};

// A call.
#[derive(Debug, Clone, Copy, PartialEq, Eq)]
pub enum Call {
    Assign { slot: usize, board_type: usize },
    Remove { slot: usize, board_type: usize },
    Mark,
    Back,
    Show { slot: usize },
    Walls { side: Side, board_type: usize },
}

// Kind, type, and the two bytes of the slot, the low one first.
impl TryFrom<[u8; 4]> for Call {
    type Error = Refusal;

    fn try_from(bytes: [u8; 4]) -> Result<Call, Refusal> {
        let [kind, board_type, low, high] = bytes;
        let board_type = usize::from(board_type);
        let slot = usize::from(u16::from_le_bytes([low, high]));
        match kind {
            1 => Ok(Call::Assign { slot, board_type }),
            2 => Ok(Call::Remove { slot, board_type }),
            3 => Ok(Call::Mark),
            4 => Ok(Call::Back),
            5 => Ok(Call::Show { slot }),
            6 => Ok(Call::Walls {
                side: Side::Upper,
                board_type,
            }),
            7 => Ok(Call::Walls {
                side: Side::Lower,
                board_type,
            }),
            _ => Err(Refusal::Kind),
        }
    }
}

// Why a call is refused, by its number.
#[derive(Debug, Clone, Copy, PartialEq, Eq)]
pub enum Refusal {
    Kind = 11,
    Slot = 12,
    Type = 13,
    NoOpenMark = 14,
    WhileDead = 15,
    TooManyMarks = 16,
}

impl Refusal {
    // The first word of a call that is refused so.
    pub fn word(self) -> u32 {
        256 + self as u32
    }
}

impl From<Full> for Refusal {
    fn from(_full: Full) -> Refusal {
        Refusal::TooManyMarks
    }
}

// What a call that is not refused answers.
#[derive(Debug, Clone, Copy, PartialEq, Eq)]
pub enum Answer {
    // The decision is in force; so many types were struck.
    Struck(u32),
    // The decision leaves no stable list, or settling did not end.
    Stopped(Stop),
    // The mask of a slot.
    Mask(u32),
    // So many walls stand.
    Walls(Side, u32),
    // A mark or a back.
    Done,
}

impl Answer {
    // Its two words.
    pub fn words(self) -> [u32; 2] {
        match self {
            Answer::Struck(struck) => [0, struck],
            Answer::Stopped(stop) => [stop.word(), 0],
            Answer::Mask(mask) => [2, mask],
            Answer::Walls(_, walls) => [2, walls],
            Answer::Done => [3, 0],
        }
    }
}

// The closed table and the settled masks of a book that is live.
#[derive(Clone, Copy)]
pub struct Opened {
    pub bounds: Bounds,
    pub masks: Masks,
}

// A session between two calls.
#[derive(Clone, Copy)]
pub struct Session<'a> {
    size: Size,
    // the idle type
    idle: Option<usize>,
    // the closed table, where the book opened live
    bounds: Option<&'a Bounds>,
    // the flag is up
    dead: bool,
    masks: Masks,
    pile: Pile,
}

impl<'a> Session<'a> {
    // The session of a book that opened live, or dead with None.
    pub fn open(size: Size, idle: Option<usize>, opened: Option<&'a Opened>) -> Session<'a> {
        Session {
            size,
            idle,
            bounds: opened.map(|opened| &opened.bounds),
            dead: opened.is_none(),
            masks: opened.map_or(Masks::zeros(), |opened| opened.masks),
            pile: Pile::new(),
        }
    }

    pub fn masks(&self) -> &Masks {
        &self.masks
    }

    // Makes one call. Of the refusals 11, 12, 13, 15, 14, 16 the first in this order is the answer.
    pub fn make_call(&mut self, call: Call) -> Result<Answer, Refusal> {
        match call {
            Call::Assign { slot, board_type } => self.decide(slot, board_type, alone(board_type)),
            Call::Remove { slot, board_type } => self.decide(slot, board_type, !alone(board_type)),
            Call::Mark => self.mark(),
            Call::Back => self.back(),
            Call::Show { slot } => self.show(slot),
            Call::Walls { side, board_type } => self.walls(side, board_type),
        }
    }

    fn needs_slot(&self, slot: usize) -> Result<(), Refusal> {
        if slot < self.size.slots {
            Ok(())
        } else {
            Err(Refusal::Slot)
        }
    }

    fn needs_type(&self, board_type: usize) -> Result<(), Refusal> {
        if board_type < self.size.types {
            Ok(())
        } else {
            Err(Refusal::Type)
        }
    }

    // The closed table of a session that is live.
    fn needs_live(&self) -> Result<&'a Bounds, Refusal> {
        match self.bounds {
            Some(bounds) if !self.dead => Ok(bounds),
            _ => Err(Refusal::WhileDead),
        }
    }

    // A decision: the slot keeps only those of its types that are in `kept`. Where no stable list lies within, M stays and the flag goes up.
    fn decide(&mut self, slot: usize, board_type: usize, kept: u32) -> Result<Answer, Refusal> {
        self.needs_slot(slot)?;
        self.needs_type(board_type)?;
        let bounds = self.needs_live()?;
        let mut cut = self.masks;
        cut.set_mask(slot, cut.mask(slot) & kept);
        if let Err(stop) = settle(self.size, bounds, &mut cut) {
            self.dead = true;
            return Ok(Answer::Stopped(stop));
        }
        let struck = self.news(&self.masks).saturating_sub(self.news(&cut));
        self.masks = cut;
        Ok(Answer::Struck(word(struck)))
    }

    // The ones in the masks, type by type, without those of the idle type.
    fn news(&self, masks: &Masks) -> usize {
        (0..self.size.types)
            .filter(|v| self.idle != Some(*v))
            .fold(0usize, |sum, v| {
                sum.saturating_add(possible(v, self.size.slots, masks))
            })
    }

    // Puts M on the pile.
    fn mark(&mut self) -> Result<Answer, Refusal> {
        self.needs_live()?;
        self.pile.push(self.masks)?;
        Ok(Answer::Done)
    }

    // Takes the latest masks from the pile as M; dead becomes live.
    fn back(&mut self) -> Result<Answer, Refusal> {
        self.masks = self.pile.pop().ok_or(Refusal::NoOpenMark)?;
        self.dead = false;
        Ok(Answer::Done)
    }

    fn show(&self, slot: usize) -> Result<Answer, Refusal> {
        self.needs_slot(slot)?;
        Ok(Answer::Mask(self.masks.mask(slot)))
    }

    // The number of walls; 0 after a dead opening.
    fn walls(&self, side: Side, board_type: usize) -> Result<Answer, Refusal> {
        self.needs_type(board_type)?;
        let Some(bounds) = self.bounds else {
            return Ok(Answer::Walls(side, 0));
        };
        let corners = Corners {
            side,
            slots: self.size.slots,
            board_type,
            bounds: match side {
                Side::Upper => &bounds.upper,
                Side::Lower => &bounds.lower,
            },
            masks: &self.masks,
        };
        Ok(Answer::Walls(side, word(corners.walls())))
    }
}

// The same number as a word of 32 bits, cut to them.
fn word(x: usize) -> u32 {
    (x & 0xffff_ffff) as u32
}
