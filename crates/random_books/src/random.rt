// Random numbers: the same seed gives the same numbers.

// The xorshift generator of 64 bits with the shifts 13, 7, 17.
#[derive(Clone, Copy)]
pub struct Random {
    // not 0 where the seed is not
    state: u64,
}

impl Random {
    pub fn new(seed: u64) -> Random {
        Random { state: seed }
    }

    // A number from 0 to limit - 1; 0 where limit is 0.
    pub fn below(&mut self, limit: usize) -> usize {
        let next = shifted(self.state);
        self.state = next;
        if limit == 0 {
            return 0;
        }
        ((next >> 16) % (limit as u64)) as usize
    }

    // Whether one case of so many of eight came up.
    pub fn in_eight(&mut self, cases: usize) -> bool {
        self.below(8) < cases
    }
}

// The next state.
fn shifted(x: u64) -> u64 {
    let y = x ^ (x << 13);
    let z = y ^ (y >> 7);
    z ^ (z << 17)
}
