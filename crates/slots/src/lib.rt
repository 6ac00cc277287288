// What the filter reads of the slots: the values that one has, and which are open, 32 at a time. Nothing is refused here. The contracts cite
// `specs/Values.antt` and the definitions of domains and filter_model.
#![tactic(auto)]

ghost use Rattle.std.specs.Prelude.{◌≡◌, false, ℕ, ◌+◌, ◌*◌, ◌-◌, ◌<◌, ◌≤◌, eqb, ltb, length, get_or};
ghost use Rattle.std.specs.Int.Count.{ones};
ghost use Rattle.domains.specs.Mask.{test_bit, Has, clear_bit};
ghost use Rattle.filter_model.specs.Open.{words_at, cells_size, open_bit, BlockAsked, OpenBlock};
ghost use Rattle.slots.specs.Values.{Free, OtherValues};

// Whether the slot has value v.
pub fn has_value(masks: &[u32], slot: usize, v: u32) -> bool
    requires { (slot < length masks.now) × (v < 32) }
    ensures { result ≡ eqb (test_bit (get_or masks.now slot 0) v) 1 }
{
    domains::has(masks[slot], v)
}

// Whether the slot has v and others besides.
pub fn is_free(masks: &[u32], slot: usize, v: u32) -> bool
    requires { (slot < length masks.now) × (v < 32) }
    ensures { Free (get_or masks.now slot 0) v result }
{
    let m = masks[slot];
    if !domains::has(m, v) {
        return false;
    }
    !domains::is_single(m)
}

// Whether the slot has more than two values.
pub fn is_wide(masks: &[u32], slot: usize) -> bool
    requires { slot < length masks.now }
    ensures { result ≡ ltb 2 (ones (get_or masks.now slot 0)) }
{
    domains::is_wide(masks[slot])
}

// What the slot has without v.
pub fn without_value(masks: &[u32], slot: usize, v: u32) -> u32
    requires { (slot < length masks.now) × (v < 32) }
    ensures { result ≡ clear_bit (get_or masks.now slot 0) v }
{
    domains::without(masks[slot], v)
}

// What the slot has besides v; 0 where it lacks v.
pub fn other_values(masks: &[u32], slot: usize, v: u32) -> u32
    requires { (slot < length masks.now) × (v < 32) }
    ensures { OtherValues (get_or masks.now slot 0) v result }
{
    let m = masks[slot];
    if !domains::has(m, v) {
        return 0;
    }
    domains::less(m, v)
}

// The open slots of block b from `start` on and before `end`, as a mask: bit i is slot 32 * b + i.
pub fn open_block(cells: &[u16], n: usize, k: u32, b: usize, start: usize, end: usize) -> u32
    requires { BlockAsked cells.now n k b start end }
    ensures { OpenBlock n k cells.now b start end result }
{
    if (end + 31) / 32 <= b {
        return 0u32;
    }
    let x = word(cells, n, k, b);
    if x == 0 {
        return 0u32;
    }
    bits_before(bits_from(x, 32 * b, start), 32 * b, end)
}

// Whether a block has an open slot, of those from `start` on before `end`: where none has, no slot from `start` on before `end` is open.
pub fn any_open(cells: &[u16], n: usize, k: u32, start: usize, end: usize) -> bool
    requires { (cells_size n k ≤ length cells.now) × (n ≤ 256) × (k ≤ 32) × (end ≤ n) }
    ensures { result ≡ false → (s : ℕ) → start ≤ s → s < end → open_bit n k cells.now s ≡ 0 }
{
    for b in start / 32..(end + 31) / 32 {
        if word(cells, n, k, b) != 0 {
            return true;
        }
    }
    false
}

// The two words of block b of the set of open slots, as one.
fn word(cells: &[u16], n: usize, k: u32, b: usize) -> u32
    requires { (words_at n k + 2 * b + 1 < length cells.now) × (n ≤ 256) × (k ≤ 32) }
    ensures { (result ≡ get_or cells.now (words_at n k + 2 * b) 0 + 65536 * get_or cells.now (words_at n k + 2 * b + 1) 0)
        × (get_or cells.now (words_at n k + 2 * b) 0 < 65536) }
{
    let at = (k + k) as usize * (n + 2) + 2 * b;
    cells[at] as u32 + 65536 * cells[at + 1] as u32
}

// The bits of a word from `start` on, where bit 0 stands for `base`.
fn bits_from(x: u32, base: usize, start: usize) -> u32
    requires { start < base + 32 }
    ensures { ((i : ℕ) → Has result i → start ≤ base + i) × ((i : ℕ) → start ≤ base + i → test_bit result i ≡ test_bit x i) }
{
    if start <= base {
        return x;
    }
    let d = (start - base) as u32;
    x - x % domains::only(d)
}

// The bits of a word before `end`, where bit 0 stands for `base`.
fn bits_before(x: u32, base: usize, end: usize) -> u32
    requires { (base ≤ end) × (end ≤ 256) }
    ensures { (result < 4294967296) × ((i : ℕ) → Has result i → base + i < end) × ((i : ℕ) → base + i < end → test_bit result i ≡ test_bit x i) }
{
    if base + 32 <= end {
        return x;
    }
    let e = (end - base) as u32;
    x % domains::only(e)
}
