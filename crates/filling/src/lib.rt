// Filling lent slices: with zeros, and with the prefix lengths of a table that has no rows.
#![tactic(auto)]

ghost use Rattle.std.specs.Prelude.{◌≡◌, ◌+◌, ◌%◌, ◌<◌, length, replicate};
ghost use Rattle.book.specs.Layout.{list_of};

// Fills s with x.
pub fn fill<Item: Copy>(s: &mut [Item], x: Item)
    ensures { s.new ≡ replicate (length s.old) x }
{
    for place in s.iter_mut() {
        *place = x;
    }
}

// Fills s with 0.
pub fn fill_zeros(s: &mut [u16])
    ensures { s.new ≡ replicate (length s.old) 0 }
{
    fill(s, 0);
}

// Fills s with the prefix length of each place: 0 to n, and again.
pub fn fill_prefixes(s: &mut [u16], n: usize)
    requires { n < 65536 }
    ensures { s.new ≡ list_of (length s.old) (λ p. p % (n + 1)) }
{
    for base in (0..s.len()).step_by(n + 1) {
        let m = (s.len() - base).min(n + 1);
        for t in 0..m {
            s[base + t] = t as u16;
        }
    }
}
