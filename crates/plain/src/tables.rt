// Closing, naively: the rules asked at each entry in turn, sweep after sweep, until a sweep changes nothing or an entry is crossed.
use crate::{ROUNDS, Stop};
use arrays::{ENDS, Row, Size, TYPES, Table};

// The table of bounds. Each side is a table of its own, since the rules, the walls and the tests go over one side at a time.
#[derive(Clone, Copy)]
pub struct Bounds {
    pub lower: Table,
    pub upper: Table,
}

impl Bounds {
    // The starting table of the rows. An upper of 65535 is above every end, so it bounds nothing.
    pub fn start(rows: &[Row]) -> Bounds {
        let mut bounds = Bounds::no_rows();
        for row in rows {
            let v = row.board_type;
            let t = row.end;
            let low = bounds.lower.entry(v, t).max(row.lower);
            let high = bounds.upper.entry(v, t).min(row.upper);
            bounds.lower.set_entry(v, t, low);
            bounds.upper.set_entry(v, t, high);
        }
        bounds
    }

    // The starting table of no rows: from 0 to the end.
    fn no_rows() -> Bounds {
        let mut upper = Table::zeros();
        for v in 0..TYPES {
            for t in 0..ENDS {
                upper.set_entry(v, t, t);
            }
        }
        Bounds {
            lower: Table::zeros(),
            upper,
        }
    }

    // The sum of the uppers less the lowers.
    pub fn width(&self, size: Size) -> usize {
        let mut sum = 0usize;
        for v in 0..size.table_types() {
            for t in 0..size.table_ends() {
                let room = self
                    .upper
                    .entry(v, t)
                    .saturating_sub(self.lower.entry(v, t));
                sum = sum.saturating_add(room);
            }
        }
        sum
    }

    // Closes the table.
    pub fn close(&mut self, size: Size) -> Result<(), Stop> {
        for _ in 0..ROUNDS {
            if !self.sweep(size)? {
                return Ok(());
            }
        }
        Err(Stop::Rounds)
    }

    // Asks the rules at each entry; left at the first that is crossed. Whether an entry changed.
    fn sweep(&mut self, size: Size) -> Result<bool, Stop> {
        let mut changed = false;
        for v in 0..size.table_types() {
            for t in 0..size.table_ends() {
                changed |= self.visit(size, v, t)?;
            }
        }
        Ok(changed)
    }

    // Asks the rules at the entry of type v and end t. No upper is at most a number below 0. Whether the entry changed.
    fn visit(&mut self, size: Size, v: usize, t: usize) -> Result<bool, Stop> {
        let given = others(size, v, t, &self.upper);
        let taken = others(size, v, t, &self.lower);
        let low = least_lower(size, v, t, t.saturating_sub(given), &self.lower);
        let high = most_upper(size, v, t, t.saturating_sub(taken), &self.upper);
        if t < taken || high < low {
            return Err(Stop::Dead);
        }
        let changed = low != self.lower.entry(v, t) || high != self.upper.entry(v, t);
        self.lower.set_entry(v, t, low);
        self.upper.set_entry(v, t, high);
        Ok(changed)
    }
}

// The sum of the other types' entries at end t.
fn others(size: Size, v: usize, t: usize, table: &Table) -> usize {
    (0..size.types)
        .filter(|w| *w != v)
        .fold(0usize, |sum, w| sum.saturating_add(table.entry(w, t)))
}

// The least lower(t) that is no smaller than it is, and at least `across`, lower(t-1) and lower(t+1) - 1, where these exist.
fn least_lower(size: Size, v: usize, t: usize, across: usize, lower: &Table) -> usize {
    let mut low = lower.entry(v, t).max(across);
    if 0 < t {
        low = low.max(lower.entry(v, t - 1));
    }
    if t < size.slots {
        low = low.max(lower.entry(v, t + 1).saturating_sub(1));
    }
    low
}

// Not one function with least_lower: each step is another one (min for max, plus 1 for less 1), and a rule passed in for each would be longer.
// The greatest upper(t) that is no larger than it is, and at most `across`, upper(t-1) + 1 and upper(t+1), where these exist.
fn most_upper(size: Size, v: usize, t: usize, across: usize, upper: &Table) -> usize {
    let mut high = upper.entry(v, t).min(across);
    if 0 < t {
        high = high.min(upper.entry(v, t - 1).saturating_add(1));
    }
    if t < size.slots {
        high = high.min(upper.entry(v, t + 1));
    }
    high
}
