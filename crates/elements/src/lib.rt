// Elements as little-endian bytes, for the exported entries. Nothing is refused here: each function requires just the room that it writes to.
// The contracts cite `specs/Elements.antt`.
#![tactic(auto)]

ghost use Rattle.std.specs.Prelude.{◌≡◌, ℕ, ◌++◌, ◌+◌, ◌*◌, ◌≤◌, length, drop, map};
ghost use Rattle.std.proofs.lemmas.List.Edits.{sets};
ghost use Rattle.elements.specs.Elements.{digits, bytes_of};

// A number that stands as an element of W bytes. No array holds them: each byte goes to its place.
pub trait Element<const W: usize>: Copy {
    ghost value: { Self → ℕ };

    // Writes its bytes at a place, the lowest first.
    fn put_at(self, out: &mut [u8], at: usize)
        requires { at + W ≤ length out.old }
        ensures { out.new ≡ sets out.old at (digits W (value self)) };
}

impl Element<2> for u16 {
    ghost value = { λ x. x };

    fn put_at(self, out: &mut [u8], at: usize) {
        out[at] = (self % 256) as u8;
        out[at + 1] = (self / 256) as u8;
    }
}

impl Element<4> for u32 {
    ghost value = { λ x. x };

    fn put_at(self, out: &mut [u8], at: usize) {
        put(out, at, (self % 65536) as u16);
        put(out, at + 2, (self / 65536) as u16);
    }
}

// Writes xs, W bytes each, into the front of out; the bytes behind keep their contents.
pub fn write<const W: usize, Number: Element<W>>(xs: &[Number], out: &mut [u8])
    requires { W * length xs.now ≤ length out.old }
    ensures { out.new ≡ bytes_of W (map Number.value xs.now) ++ drop (W * length xs.now) out.old }
{
    for (i, x) in xs.iter().enumerate() {
        put(out, W * i, *x);
    }
}

// Writes one element at a place.
pub fn put<const W: usize, Number: Element<W>>(out: &mut [u8], at: usize, x: Number)
    requires { at + W ≤ length out.old }
    ensures { out.new ≡ sets out.old at (digits W (Number.value x)) }
{
    x.put_at(out, at);
}

// Writes xs, 2 bytes each, into the front of out; the bytes behind keep their contents.
pub fn write16(xs: &[u16], out: &mut [u8])
    requires { 2 * length xs.now ≤ length out.old }
    ensures { out.new ≡ bytes_of 2 xs.now ++ drop (2 * length xs.now) out.old }
{
    write(xs, out);
}

// Writes xs, 4 bytes each, into the front of out; the bytes behind keep their contents.
pub fn write32(xs: &[u32], out: &mut [u8])
    requires { 4 * length xs.now ≤ length out.old }
    ensures { out.new ≡ bytes_of 4 xs.now ++ drop (4 * length xs.now) out.old }
{
    write(xs, out);
}
