// Corners put into the cells of one row, from the last to the first: the cells emptied, a prefix visited, a corner inserted before those that the cells
// hold, links made to lead to the first right end (the crate `segments` says what a cell holds). A broken corner is answered; nothing is refused
// here. The contracts cite `specs/Visit.antt` and the definitions of segments_model.
#![tactic(auto)]

ghost use Rattle.std.specs.Prelude.{◌≡◌, ◌+◌, ◌-◌, ◌<◌, ◌≤◌, length, get_or};
ghost use Rattle.segments_model.specs.Build.{Inserted, Pointed};
ghost use Rattle.segments_model.specs.Links.{Fresh};
ghost use Rattle.inserting.specs.Visit.{Visit};

// Empties the cells up to n: no spent corner, and links to the next place.
pub fn blank(cells: &mut [u16], n: usize)
    requires { n < length cells.old }
    ensures { (length cells.new ≡ length cells.old) × (get_or cells.new 0 0 ≡ 0) × Fresh n cells.new }
{
    cells[0] = 0;
    for t in 1..n + 1 {
        cells[t] = 1024;
    }
}

// Takes the prefix t, where those after it are done and `next` is the first right end: the first right end then; or none, where the corner t lacks slack.
pub fn visit(
    cells: &mut [u16],
    n: usize,
    t: usize,
    corner: bool,
    gained: usize,
    lost: usize,
    next: usize,
) -> Option<usize>
    requires { (0 < t) × (t ≤ n) × (n < length cells.old) × (n < 1024) × (gained < 1024) × (t < next) × (next ≤ n + 1) }
    ensures { Visit n t corner gained lost next cells.old cells.new result }
{
    if !corner {
        return Some(next);
    }
    if gained < lost {
        return None;
    }
    let first = insert(cells, n, t, gained - lost, next);
    Some(first)
}

// Adds the corner t with slack x before those that the cells hold, of which the first right end is at next. The first right end after it.
pub fn insert(cells: &mut [u16], n: usize, t: usize, x: usize, next: usize) -> usize
    requires { (0 < t) × (t ≤ n) × (n < length cells.old) × (n < 1024) × (x < 1024) × (t < next) × (next ≤ n + 1) }
    ensures { Inserted n t x next cells.old cells.new result }
{
    if cells[0] != 0 {
        return next;
    }
    if x == 0 {
        cells[0] = t as u16;
        return next;
    }
    if n < next {
        cells[t] = (x - 1) as u16;
        point(cells, t + 1, next);
        return t;
    }
    let y = cells[next] as usize;
    if y < x {
        return next;
    }
    cells[next] = (y - x) as u16;
    cells[t] = (x - 1) as u16;
    point(cells, t + 1, next);
    t
}

// Makes the cells from `from` on and before `next` links to `next`.
pub fn point(cells: &mut [u16], from: usize, next: usize)
    requires { (from ≤ next) × (next ≤ length cells.old) × (next ≤ 1024) }
    ensures { Pointed from next next cells.old cells.new }
{
    // counted down in its own 16 bits, so that several links are stored at once
    let mut c = (1023 + (next - from)) as u16;
    for i in from..next {
        cells[i] = c;
        c -= 1;
    }
}
