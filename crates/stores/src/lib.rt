// Single entries of a table: read, compared, raised, lowered. The contracts cite `raised`, `lowered` and `Stored` of closing_model's
// specs/Sweep.antt.
#![tactic(auto)]

ghost use Rattle.std.specs.Prelude.{◌≡◌, ◌-◌, ◌<◌, length, get_or};
ghost use Rattle.std.specs.Int.Bits.{bit_or};
ghost use Rattle.closing_model.specs.Sweep.{raised, lowered, Stored};

// The entry at p, as a number to compute with.
pub fn at(s: &[u16], p: usize) -> usize
    requires { p < length s.now }
    ensures { (result ≡ get_or s.now p 0) × (result < 65536) }
{
    s[p] as usize
}

// The entry at p, in its own 16 bits: a loop on these takes several entries at once.
pub fn entry(s: &[u16], p: usize) -> u16
    requires { p < length s.now }
    ensures { result ≡ get_or s.now p 0 }
{
    s[p]
}

// x less y, 0 where y is more.
pub fn less16(x: u16, y: u16) -> u16
    ensures { result ≡ x - y }
{
    x.saturating_sub(y)
}

// The bits of either number: no less than each, 0 where both are, at most 1 where both are.
pub fn either16(x: u16, y: u16) -> u16
    ensures { result ≡ bit_or x y }
{
    x | y
}

// Raises the entry at p to x where it is below, and returns the entry. It stores without a branch.
pub fn raise(s: &mut [u16], p: usize, x: usize) -> usize
    requires { (p < length s.old) × (x < 65536) }
    ensures { (s.new ≡ raised s.old p x) × (result ≡ get_or s.new p 0) × (result < 65536) }
{
    let y = at(s, p).max(x);
    s[p] = y as u16;
    y
}

// Lowers the entry at p to x where it is above, and returns the entry. It stores without a branch.
pub fn lower_to(s: &mut [u16], p: usize, x: usize) -> usize
    requires { p < length s.old }
    ensures { (s.new ≡ lowered s.old p x) × (result ≡ get_or s.new p 0) × (result < 65536) }
{
    let y = at(s, p).min(x);
    s[p] = y as u16;
    y
}

// Raises the lower at p to x and lowers the upper there to y, and says whether either changed.
pub fn narrow(lowers: &mut [u16], uppers: &mut [u16], p: usize, x: usize, y: usize) -> bool
    requires { (p < length lowers.old) × (p < length uppers.old) × (x < 65536) }
    ensures { Stored lowers.old uppers.old lowers.new uppers.new p x y result }
{
    let a = at(lowers, p);
    let b = at(uppers, p);
    raise(lowers, p, x);
    lower_to(uppers, p, y);
    if a < x {
        return true;
    }
    y < b
}
