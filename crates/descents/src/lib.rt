// The fall of one row of cells, told by its reach and by what takes it back. Nothing is refused here. The contracts cite `specs/Told.antt` and the
// definitions of filter_model.
#![tactic(auto)]

ghost use Rattle.std.specs.Prelude.{◌≡◌, cond, ◌+◌, ◌*◌, ◌-◌, ◌<◌, ◌≤◌, ltb, length, get_or};
ghost use Rattle.segments_model.specs.Part.{Lent};
ghost use Rattle.filter_model.specs.Strike.{Dropped};
ghost use Rattle.descents.specs.Told.{Told};

// A row's fall: that it cannot be; the end before which all must be settled, or 0; and the tag and the note by which the fall is taken back. Where
// there is such an end, the note is the one before which all was to be settled already. A flag and no Option: `strikes::strike_one` looks at both spent
// corners before it lets either row fall, so an Option would want two arms there for a None that never comes.
#[derive(Clone, Copy)]
pub struct Descent {
    pub clash: bool,
    pub reach: usize,
    pub tag: usize,
    pub note: usize,
}

// The spent corner of a row: the last one without slack, or 0.
pub fn spent(cells: &[u16], row: u32, n: usize) -> usize
    requires { row * (n + 2) + n + 1 < length cells.now }
    ensures { result ≡ get_or cells.now (row * (n + 2)) 0 }
{
    cells[row as usize * (n + 2)] as usize
}

// Lowers the slack of a row by one after the slot; where the slot is before the spent corner that is a clash, and the cells stay.
pub fn fall_row(cells: &mut [u16], row: u32, n: usize, slot: usize) -> Descent
    requires { (slot ≤ n) × (row * (n + 2) + n + 1 < length cells.old) × (n ≤ 256) }
    ensures { Lent (row * (n + 2)) (n + 2) (λ a b. Dropped n slot a b result.reach result.tag result.note) cells.old cells.new
        × Told slot (get_or cells.old (row * (n + 2)) 0) cells.old cells.new result.clash }
{
    let hit = segments::fall_in(cells, row as usize * (n + 2), n, slot);
    match hit {
        segments::Hit::Lowered(t) => {
            // the tag: 1 for the first right end, else 0
            let g = 2usize.saturating_sub(t);
            return fell_by(false, 0, g, t + g - 2);
        }
        segments::Hit::Still => {
            return fell_by(false, 0, 2, 0);
        }
        segments::Hit::Joined(p) => {
            return fell_by(false, 0, 2, p);
        }
        segments::Hit::Clash => {
            return fell_by(true, 0, 2, 0);
        }
        segments::Hit::Reached(t, z) => {
            return fell_by(false, up_to(n, t), 3, z);
        }
    }
}

// t, or 0 where it is after n.
fn up_to(n: usize, t: usize) -> usize
    ensures { result ≡ cond (ltb n t) 0 t }
{
    if n < t {
        return 0usize;
    }
    t
}

// What a row's fall led to, from its parts.
fn fell_by(clash: bool, reach: usize, tag: usize, note: usize) -> Descent
    ensures { (result.clash ≡ clash) × (result.reach ≡ reach) × (result.tag ≡ tag) × (result.note ≡ note) }
{
    Descent {
        clash,
        reach,
        tag,
        note,
    }
}
