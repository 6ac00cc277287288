// An entry's outputs. Before an entry runs every element is `UNWRITTEN`, which no bound, mask or word of the cases is: a mark and no Option, since the
// entries write plain numbers.

ghost use Rattle.std.specs.Prelude.{◌≡◌, replicate};

// What a bound is that was not written, and what a word or a mask is.
pub const UNWRITTEN: u16 = 9999;

pub const UNWRITTEN_WORD: u32 = UNWRITTEN as u32;

// The room for each output: one more element than any entry writes, and for the words one call more.
const BOUNDS: usize = 32 * 257 + 1;

const WORDS: usize = 2 * 4097;

const MASKS: usize = 257;

#[derive(Drop)]
pub struct Outputs {
    pub lowers: [u16; BOUNDS],
    pub uppers: [u16; BOUNDS],
    pub words: [u32; WORDS],
    pub masks: [u32; MASKS],
}

impl Outputs {
    // Outputs of which nothing was written.
    pub fn unwritten() -> Outputs
        ensures bounds { (result.lowers ≡ replicate 8225 9999) × (result.uppers ≡ replicate 8225 9999) }
        ensures others { (result.words ≡ replicate 8194 9999) × (result.masks ≡ replicate 257 9999) }
    {
        Outputs {
            lowers: [UNWRITTEN; BOUNDS],
            uppers: [UNWRITTEN; BOUNDS],
            words: [UNWRITTEN_WORD; WORDS],
            masks: [UNWRITTEN_WORD; MASKS],
        }
    }

    // Zeros, for `clear`.
    pub fn zeros() -> Outputs
        ensures bounds { (result.lowers ≡ replicate 8225 0) × (result.uppers ≡ replicate 8225 0) }
        ensures others { (result.words ≡ replicate 8194 0) × (result.masks ≡ replicate 257 0) }
    {
        Outputs {
            lowers: [0; BOUNDS],
            uppers: [0; BOUNDS],
            words: [0; WORDS],
            masks: [0; MASKS],
        }
    }

    // Makes them outputs of which nothing was written, in place: they are large, and those of `unwritten` are copied where it returns.
    pub fn clear(&mut self)
        ensures bounds { (self.new.lowers ≡ replicate 8225 9999) × (self.new.uppers ≡ replicate 8225 9999) }
        ensures others { (self.new.words ≡ replicate 8194 9999) × (self.new.masks ≡ replicate 257 9999) }
    {
        self.lowers.fill(UNWRITTEN);
        self.uppers.fill(UNWRITTEN);
        self.words.fill(UNWRITTEN_WORD);
        self.masks.fill(UNWRITTEN_WORD);
    }
}
