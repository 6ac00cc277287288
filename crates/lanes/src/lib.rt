// Eight numbers of 16 bits side by side, each in a field of its own: a loop on them takes all eight at once. Nothing is refused here.
// The contracts cite `specs/Lanes.antt`.
#![tactic(auto)]

ghost use Rattle.std.specs.Prelude.{◌≡◌, ◌+◌, ◌-◌, ◌<◌, min, ltb, length, get_or};
ghost use Rattle.std.proofs.lemmas.List.Edits.{sets};
ghost use Rattle.lanes.specs.Lanes.{lanes, lane, total, Eightfold};

// Fields and not an array: LLVM takes the eight of them by one operation of 128 bits in each function below.
#[derive(Clone, Copy)]
pub struct Eight {
    pub e0: u16,
    pub e1: u16,
    pub e2: u16,
    pub e3: u16,
    pub e4: u16,
    pub e5: u16,
    pub e6: u16,
    pub e7: u16,
}

// Eight times x.
pub fn same(x: u16) -> Eight
    ensures { Eightfold (λ i. lane result i ≡ x) }
{
    Eight {
        e0: x,
        e1: x,
        e2: x,
        e3: x,
        e4: x,
        e5: x,
        e6: x,
        e7: x,
    }
}

// The numbers from t on.
pub fn numbers(t: usize) -> Eight
    requires { t + 7 < 65536 }
    ensures { Eightfold (λ i. lane result i ≡ t + i) }
{
    Eight {
        e0: (t + 0) as u16,
        e1: (t + 1) as u16,
        e2: (t + 2) as u16,
        e3: (t + 3) as u16,
        e4: (t + 4) as u16,
        e5: (t + 5) as u16,
        e6: (t + 6) as u16,
        e7: (t + 7) as u16,
    }
}

// The entries from p on.
pub fn load(s: &[u16], p: usize) -> Eight
    requires { p + 7 < length s.now }
    ensures { Eightfold (λ i. lane result i ≡ get_or s.now (p + i) 0) }
{
    Eight {
        e0: s[p + 0],
        e1: s[p + 1],
        e2: s[p + 2],
        e3: s[p + 3],
        e4: s[p + 4],
        e5: s[p + 5],
        e6: s[p + 6],
        e7: s[p + 7],
    }
}

// Puts e into the entries from p on.
pub fn store(s: &mut [u16], p: usize, e: Eight)
    requires { p + 7 < length s.old }
    ensures { s.new ≡ sets s.old p (lanes e) }
{
    s[p] = e.e0;
    s[p + 1] = e.e1;
    s[p + 2] = e.e2;
    s[p + 3] = e.e3;
    s[p + 4] = e.e4;
    s[p + 5] = e.e5;
    s[p + 6] = e.e6;
    s[p + 7] = e.e7;
}

// Each number of a and that of b, together; 65535 where they come to more.
pub fn sum(a: Eight, b: Eight) -> Eight
    ensures { Eightfold (λ i. lane result i ≡ min 65535 (lane a i + lane b i)) }
{
    Eight {
        e0: a.e0.saturating_add(b.e0),
        e1: a.e1.saturating_add(b.e1),
        e2: a.e2.saturating_add(b.e2),
        e3: a.e3.saturating_add(b.e3),
        e4: a.e4.saturating_add(b.e4),
        e5: a.e5.saturating_add(b.e5),
        e6: a.e6.saturating_add(b.e6),
        e7: a.e7.saturating_add(b.e7),
    }
}

// Each number of a less that of b, 0 where that is more.
pub fn less(a: Eight, b: Eight) -> Eight
    ensures { Eightfold (λ i. lane result i ≡ lane a i - lane b i) }
{
    Eight {
        e0: a.e0.saturating_sub(b.e0),
        e1: a.e1.saturating_sub(b.e1),
        e2: a.e2.saturating_sub(b.e2),
        e3: a.e3.saturating_sub(b.e3),
        e4: a.e4.saturating_sub(b.e4),
        e5: a.e5.saturating_sub(b.e5),
        e6: a.e6.saturating_sub(b.e6),
        e7: a.e7.saturating_sub(b.e7),
    }
}

// Whether one of them is not 0, by the bits of all of them.
pub fn any(e: Eight) -> bool
    ensures { result ≡ ltb 0 (total e) }
{
    let front = (e.e0 | e.e1) | (e.e2 | e.e3);
    let back = (e.e4 | e.e5) | (e.e6 | e.e7);
    0 < front | back
}
