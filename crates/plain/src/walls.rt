// Walls, by their formula: each corner's slack is counted anew on the masks.
use crate::lists::{bound, possible};
use arrays::{Masks, Table};

// Which bounds a wall or a corner belongs to.
#[derive(Debug, Clone, Copy, PartialEq, Eq)]
pub enum Side {
    Upper,
    Lower,
}

// One side of the bounds of one type, and the masks.
#[derive(Clone, Copy)]
pub struct Corners<'a> {
    pub side: Side,
    pub slots: usize,
    pub board_type: usize,
    // the closed table's uppers, or its lowers
    pub bounds: &'a Table,
    pub masks: &'a Masks,
}

impl Corners<'_> {
    // How many walls stand.
    pub fn walls(&self) -> usize {
        (1..=self.slots).filter(|t| self.is_wall(*t)).count()
    }

    // Whether a wall stands at t: a corner whose slack is above 0 and below that of every later corner.
    fn is_wall(&self, t: usize) -> bool {
        let own = self.slack(t);
        own != 0
            && self.is_corner(t)
            && (t..=self.slots)
                .skip(1)
                .all(|later| !self.is_corner(later) || own < self.slack(later))
    }

    // Upper less B at an upper corner, P less lower at a lower one. On stable masks neither is below 0.
    fn slack(&self, t: usize) -> usize {
        let here = self.bounds.entry(self.board_type, t);
        match self.side {
            Side::Upper => here.saturating_sub(bound(self.board_type, t, self.masks)),
            Side::Lower => possible(self.board_type, t, self.masks).saturating_sub(here),
        }
    }

    // Whether the bounds have a corner at t, from 1 to n.
    fn is_corner(&self, t: usize) -> bool {
        let before = self.bounds.entry(self.board_type, t.saturating_sub(1));
        let here = self.bounds.entry(self.board_type, t);
        let after = self.bounds.entry(self.board_type, t.saturating_add(1));
        let last = t == self.slots;
        match self.side {
            Side::Upper => here == before && (last || after == here.saturating_add(1)),
            Side::Lower => here == before.saturating_add(1) && (last || after == here),
        }
    }
}
