// The rises of one kind of bound: a closed table's lines start at 0 and grow by 0 or 1, so a mask for each prefix length holds them.
// Every table is taken and nothing is refused. The contracts cite `specs/Rises.antt`.
#![tactic(auto)]

ghost use Rattle.std.specs.Prelude.{◌≡◌, not, ◌++◌, ◌+◌, ◌*◌, ◌-◌, ◌^◌, ◌<◌, eqb, length, get_or, drop};
ghost use Rattle.domains.specs.Counts.{bit};
ghost use Rattle.domains.specs.Mask.{test_bit};
ghost use Rattle.book.specs.Layout.{list_of};
ghost use Rattle.rises.specs.Rises.{over_rises, Holds, Marks};

use domains::with;
use filling::fill;

// Writes the rises of a table of k values and the prefix lengths 0 to n into the front of rises.
pub fn write_rises(table: &[u16], n: usize, k: usize, rises: &mut [u32])
    requires { Holds n k table.now × (n < length rises.old) }
    ensures { rises.new ≡ over_rises n k table.now rises.old }
{
    clear(rises, n);
    for v in 0..k {
        note_value(table, n, v, rises);
    }
}

// Makes the masks up to n empty.
fn clear(rises: &mut [u32], n: usize)
    requires { n < length rises.old }
    ensures { rises.new ≡ list_of (n + 1) (λ t. 0) ++ drop (n + 1) rises.old }
{
    fill(&mut rises[..n + 1], 0);
}

// Puts value v into the masks where it rises, beside the values below it.
fn note_value(table: &[u16], n: usize, v: usize, rises: &mut [u32])
    requires { Holds n (v + 1) table.now × Marks n v table.now rises.old }
    ensures { rises.new ≡ over_rises n (v + 1) table.now rises.old }
{
    let base = v * (n + 1);
    rises[0] = 0;
    for t in 0..n {
        rises[t + 1] = noted(rises[t + 1], v as u32, differs(table, base + (t + 1)));
    }
}

// Whether the entry at place p differs from the one before it.
fn differs(table: &[u16], p: usize) -> bool
    requires { (0 < p) × (p < length table.now) }
    ensures { result ≡ not (eqb (get_or table.now p 0) (get_or table.now (p - 1) 0)) }
{
    table[p] != table[p - 1]
}

// m, with value v put in where it rises.
fn noted(m: u32, v: u32, rises: bool) -> u32
    requires { (v < 32) × (test_bit m v ≡ 0) }
    ensures { result ≡ m + bit rises * 2 ^ v }
{
    if rises { with(m, v) } else { m }
}
