// Builds the cells of all values from a table's rises and the masks: the rows of both kinds, and the set of open slots. A broken corner is answered;
// nothing is refused here. The contracts cite `specs/Built.antt` and the definitions of filter_model.
#![tactic(auto)]

ghost use Rattle.std.specs.Prelude.{◌≡◌, true, false, ◌<◌, ◌≤◌, length};
ghost use Rattle.filter_model.specs.Mirror.{row};
ghost use Rattle.mirroring.specs.Built.{Building, RowsBuilt, Marking, WordOf, Marked, AllBuilt};

// Builds the rows of both kinds and the set of open slots. False where a corner is broken.
pub fn build_all(
    cells: &mut [u16],
    lowers: &[u32],
    uppers: &[u32],
    masks: &[u32],
    n: usize,
    k: u32,
) -> bool
    requires { Building cells.old lowers.now masks.now n k × (n < length uppers.now) }
    ensures { AllBuilt n k lowers.now uppers.now masks.now cells.old cells.new result }
{
    if !build_rows(cells, lowers, masks, n, k, true, 0) {
        return false;
    }
    if !build_rows(cells, uppers, masks, n, k, false, k) {
        return false;
    }
    mark_open(cells, masks, n, k);
    true
}

// Builds the rows of one kind, the first of which is `first`. False where a corner is broken.
fn build_rows(
    cells: &mut [u16],
    rises: &[u32],
    masks: &[u32],
    n: usize,
    k: u32,
    lower: bool,
    first: u32,
) -> bool
    requires { Building cells.old rises.now masks.now n k × (first ≡ row lower k 0) }
    ensures { RowsBuilt lower n k rises.now masks.now cells.old cells.new k result }
{
    for v in 0..k {
        if !building::build_in(
            cells,
            (first + v) as usize * (n + 2),
            rises,
            masks,
            n,
            v,
            lower,
        ) {
            return false;
        }
    }
    true
}

// Writes the set of open slots.
fn mark_open(cells: &mut [u16], masks: &[u32], n: usize, k: u32)
    requires { Marking cells.old masks.now n k }
    ensures { Marked n k masks.now cells.old cells.new 16 }
{
    for b in 0..16 {
        let x = open_word(masks, n, 16 * b);
        cells[(k + k) as usize * (n + 2) + b] = x as u16;
    }
}

// The word of 16 slots from `base` on: bit i tells whether slot base + i is before n and has two values or more.
fn open_word(masks: &[u32], n: usize, base: usize) -> u32
    requires { (n ≤ length masks.now) × (base ≤ 256) }
    ensures { WordOf masks.now n base 16 result }
{
    let mut x: u32 = 0;
    for i in 0..16 {
        if n <= base + i {
            continue;
        }
        if domains::count(masks[base + i]) < 2 {
            continue;
        }
        x = domains::with(x, i as u32);
    }
    x
}
