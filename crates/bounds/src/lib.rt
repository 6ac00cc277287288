// Closing a table of bounds in place (document 01, 'Closing'): the two slices hold lowers and uppers, value by value, and are swept
// until a sweep changes nothing or finds a crossed entry. No other array is used. The contract cites specs/Answer.antt, `Fits` of column_rules'
// specs/Answer.antt and the model `closing` of closing_model's specs/Closing.antt.
#![tactic(auto)]

ghost use Rattle.std.specs.Prelude.{◌≡◌};
ghost use Rattle.closing_model.specs.Closing.{closing};
ghost use Rattle.column_rules.specs.Answer.{Fits};
ghost use Rattle.bounds.specs.Answer.{answered};

use columns::columns;
use line_tests::crosses;
use lines::line;

// How many prefixes of a line are tested by one branch.
const PREFIXES_AT_ONCE: usize = 64;

// Closes the table in place: true, and the loosest closed table within it stands in the slices, or false where none lies within (document
// 01: dead). Nested loops, which the label leaves at a crossed entry, and no function of its own for a sweep: document 01 wants them here.
pub fn close_table(lowers: &mut [u16], uppers: &mut [u16], n: usize, k: usize) -> bool
    requires { Fits n k lowers.old uppers.old }
    ensures { closing n k lowers.old uppers.old ≡ answered result lowers.new uppers.new }
{
    'sweeps: loop {
        let mut changed = false;
        for v in 0..k {
            let base = v * (n + 1);
            changed |= line(lowers, uppers, base, n);
            for t in (0..n + 1).step_by(PREFIXES_AT_ONCE) {
                let m = (n + 1 - t).min(PREFIXES_AT_ONCE);
                if crosses(lowers, uppers, base + t, m) {
                    break 'sweeps;
                }
            }
        }
        let Ok(moved) = columns(lowers, uppers, n, k) else {
            break;
        };
        changed |= moved;
        if !changed {
            return true;
        }
    }
    false
}
