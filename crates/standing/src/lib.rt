// How many segments stand in the cells of one row. `standing_in` takes a row of n slots, its cells from 0 to n + 1. Nothing is refused here. The
// contracts cite segments_model's `specs/Cells.antt` and `specs/Links.antt`.
#![tactic(auto)]

ghost use Rattle.std.specs.Prelude.{◌≡◌, ◌+◌, ◌<◌, length};
ghost use Rattle.segments_model.specs.Cells.{standing_in};
ghost use Rattle.segments_model.specs.Links.{gaps};
ghost use Rattle.segments_model.specs.Part.{part};

// How many segments the cells hold, of those that end at n or before.
pub fn standing(cells: &[u16], n: usize) -> usize
    requires { n < length cells.now }
    ensures { result ≡ standing_in (gaps cells.now) n }
{
    let mut count: usize = 0;
    for t in 0..n {
        if cells[t + 1] < 1024 {
            count += 1;
        }
    }
    count
}

// The same for a row of n slots, the n + 2 cells from `base` on.
pub fn standing_in(cells: &[u16], base: usize, n: usize) -> usize
    requires { base + n + 1 < length cells.now }
    ensures { result ≡ standing_in (gaps (part base (n + 2) cells.now)) n }
{
    let end = base + n + 2;
    standing(&cells[base..end], n)
}
