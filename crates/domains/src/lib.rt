// One slot's mask as a `u32`: bit v says that value v may go in that slot. A mask is never refused here: every `u32` is one.
// The contracts cite `specs/Mask.antt`; `specs/Masks.antt` has what the layers above say of lists of masks.
#![tactic(auto)]

ghost use Rattle.std.specs.Prelude.{◌≡◌, ◌+◌, ◌<◌, ◌^◌, eqb, ltb};
ghost use Rattle.std.specs.Int.Count.{ones};
ghost use Rattle.domains.specs.Mask.{test_bit, clear_bit, Fixed, Lowest};

// Whether value v is in m.
pub fn has(m: u32, v: u32) -> bool
    requires { v < 32 }
    ensures { result ≡ eqb (test_bit m v) 1 }
{
    (m >> v) % 2 == 1
}

// m with value v taken out, whether it was in or not.
pub fn without(m: u32, v: u32) -> u32
    requires { v < 32 }
    ensures { result ≡ clear_bit m v }
{
    m - ((m >> v) % 2 << v)
}

// m without value v, which it has.
pub fn less(m: u32, v: u32) -> u32
    requires { (v < 32) × (test_bit m v ≡ 1) }
    ensures { result ≡ clear_bit m v }
{
    m - (1 << v)
}

// m with value v put in, where it is not.
pub fn with(m: u32, v: u32) -> u32
    requires { (v < 32) × (test_bit m v ≡ 0) }
    ensures { result ≡ m + 2 ^ v }
{
    m + (1 << v)
}

// How many values m has.
pub fn count(m: u32) -> u32
    ensures { result ≡ ones m }
{
    u32::count_ones(m)
}

// Whether m has just one value.
pub fn is_single(m: u32) -> bool
    ensures { result ≡ eqb (ones m) 1 }
{
    u32::count_ones(m) == 1
}

// Whether m has more than two values: at least two are left when one is taken out.
pub fn is_wide(m: u32) -> bool
    ensures { result ≡ ltb 2 (ones m) }
{
    if m == 0 {
        return false;
    }
    1 < count(less(m, lowest(m)))
}

// The value that m is fixed to, where it has just one.
pub fn single_value(m: u32) -> u32
    requires { ones m ≡ 1 }
    ensures { (result < 32) × Fixed m result }
{
    u32::trailing_zeros(m)
}

// The lowest value of m, where it has any.
pub fn lowest(m: u32) -> u32
    requires { 0 < m }
    ensures { (result < 32) × Lowest m result }
{
    u32::trailing_zeros(m)
}

// The mask that is fixed to v.
pub fn only(v: u32) -> u32
    requires { v < 32 }
    ensures { Fixed result v }
{
    1 << v
}
