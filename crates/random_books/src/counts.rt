// What a run counts, and where the engine and the plain filter first differ.
use std::fmt;

// What is counted.
#[derive(Debug, Clone, Copy, PartialEq, Eq)]
pub enum Counter {
    Books,
    ClosedDead,
    SettledDead,
    Live,
    BoundsMoved,
    SettledStruck,
    Calls,
    LiveDecisions,
    DeadDecisions,
    Struck,
    MarksAndBacks,
    Shown,
    UpperWalls,
    LowerWalls,
    RefusedKind,
    RefusedSlot,
    RefusedType,
    RefusedBack,
    RefusedDead,
    RefusedMark,
    Differences,
}

impl Counter {
    // All of them, in the order of the report.
    const ALL: [Counter; 21] = [
        Counter::Books,
        Counter::ClosedDead,
        Counter::SettledDead,
        Counter::Live,
        Counter::BoundsMoved,
        Counter::SettledStruck,
        Counter::Calls,
        Counter::LiveDecisions,
        Counter::DeadDecisions,
        Counter::Struck,
        Counter::MarksAndBacks,
        Counter::Shown,
        Counter::UpperWalls,
        Counter::LowerWalls,
        Counter::RefusedKind,
        Counter::RefusedSlot,
        Counter::RefusedType,
        Counter::RefusedBack,
        Counter::RefusedDead,
        Counter::RefusedMark,
        Counter::Differences,
    ];
}

impl fmt::Display for Counter {
    fn fmt<W: fmt::Write>(&self, f: &mut fmt::Formatter<W>) -> fmt::Result {
        f.write_str(match self {
            Counter::Books => "books",
            Counter::ClosedDead => "closed dead",
            Counter::SettledDead => "settled dead",
            Counter::Live => "live",
            Counter::BoundsMoved => "bounds moved",
            Counter::SettledStruck => "settling struck",
            Counter::Calls => "calls",
            Counter::LiveDecisions => "live decisions",
            Counter::DeadDecisions => "dead decisions",
            Counter::Struck => "struck",
            Counter::MarksAndBacks => "marks and backs",
            Counter::Shown => "shown above 0",
            Counter::UpperWalls => "upper walls above 0",
            Counter::LowerWalls => "lower walls above 0",
            Counter::RefusedKind => "refused 11",
            Counter::RefusedSlot => "refused 12",
            Counter::RefusedType => "refused 13",
            Counter::RefusedBack => "refused 14",
            Counter::RefusedDead => "refused 15",
            Counter::RefusedMark => "refused 16",
            Counter::Differences => "differences",
        })
    }
}

// A step of a book whose results are compared.
#[derive(Debug, Clone, Copy, PartialEq, Eq)]
pub enum Step {
    Check = 1,
    Closing = 2,
    Settling = 3,
    Calls = 4,
    LastMasks = 5,
}

// Where the engine and the plain filter differ: the book, the step and the place in what the step compares.
#[derive(Debug, Clone, Copy, PartialEq, Eq)]
pub struct Difference {
    pub book: usize,
    pub step: Step,
    pub place: usize,
}

// The counts of a run, and the first difference.
#[derive(Clone, Copy)]
pub struct Counts {
    counts: [usize; 21],
    first: Option<Difference>,
}

impl Counts {
    pub fn new() -> Counts {
        Counts {
            counts: [0; 21],
            first: None,
        }
    }

    fn count(&self, counter: Counter) -> usize {
        self.counts[counter as usize]
    }

    pub fn add(&mut self, counter: Counter, x: usize) {
        self.counts[counter as usize] = self.count(counter).saturating_add(x);
    }

    // Adds 1 where x is above 0.
    pub fn add_if(&mut self, counter: Counter, x: u32) {
        if 0 < x {
            self.add(counter, 1);
        }
    }

    // Counts a difference.
    pub fn differ(&mut self, difference: Difference) {
        if self.first.is_none() {
            self.first = Some(difference);
        }
        self.add(Counter::Differences, 1);
    }
}

// All counts, one to a line, and the first difference if there is one.
impl fmt::Display for Counts {
    fn fmt<W: fmt::Write>(&self, f: &mut fmt::Formatter<W>) -> fmt::Result {
        for counter in Counter::ALL {
            let count = self.count(counter);
            writeln!(f, "{counter} {count}")?;
        }
        if let Some(first) = self.first {
            writeln!(f, "first in book {}", first.book)?;
            writeln!(f, "step {}", first.step as u8)?;
            writeln!(f, "place {}", first.place)?;
        }
        Ok(())
    }
}

#[cfg(test)]
mod tests {
    use super::*;
    use crate::found::Comparison;
    use std::test::Fail;

    // The first of two differences is told after all counts.
    #[test]
    fn first_difference(rt: HostRuntime) -> Result<(), Fail> {
        let mut counts = Counts::new();
        Comparison::new(7, Step::Calls, &mut counts).same(12, 1, 2);
        Comparison::new(8, Step::Closing, &mut counts).same(3, 0, 5);
        let text = format!(in rt.alloc(); "{counts}")?;
        let told = "refused 16 0\ndifferences 2\nfirst in book 7\nstep 4\nplace 12\n";
        assert!(rt; text.as_str().starts_with("books 0\nclosed dead 0\n"));
        assert!(rt; text.as_str().ends_with(told));
        Ok(())
    }
}
