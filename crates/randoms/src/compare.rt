// One book through the engine's typed entries and through the plain filter, step by step. What is counted is what the plain filter says.
// The arrays lent to the engine are filled before each call: what it must not write must still be there.
use answer::{Verdict, word};
use arrays::{Masks, SLOTS, Table};
use plain::{Bounds, Opened, Stop};
use plain_runs::{close_plainly, run_calls, settle_plainly};
use random_books::{Book, Comparison, Counts, FILL16, FILL32, Step};

// A book of the run, its bytes, and the counts of the run.
#[derive(Drop)]
pub struct Trial<'a> {
    pub made: &'a Book,
    pub book: &'a [u8],
    pub counts: &'a mut Counts,
}

impl Trial<'_> {
    // The comparison of what a step wrote.
    fn step(&mut self, step: Step) -> Comparison<'_> {
        Comparison::new(self.made.number, step, self.counts)
    }

    // Step 1: the book is a good one.
    pub fn check(&mut self) {
        let book = self.book;
        let found = word(entries::check(book).map(|()| Verdict::Live));
        self.step(Step::Check).same(0, found as usize, 0);
    }

    // Step 2: closing. A dead book's table is zeros. What the plain filter answers.
    pub fn close(&mut self) -> Result<Bounds, Stop> {
        let made = self.made;
        let book = self.book;
        let closed = close_plainly(made, self.counts);
        let mut lowers = [FILL16; 256];
        let mut uppers = [FILL16; 256];
        let found = word(entries::close(book, &mut lowers, &mut uppers));
        let bounds = closed.unwrap_or(Bounds {
            lower: Table::zeros(),
            upper: Table::zeros(),
        });
        let mut step = self.step(Step::Closing);
        step.same(256, found as usize, plain_word(&closed));
        step.same_table(made.size, &lowers, &bounds.lower);
        step.same_table(made.size, &uppers, &bounds.upper);
        closed
    }

    // Step 3: settling, of a book that closing answered so. A dead book's masks are zeros. What the plain filter answers.
    pub fn settle(&mut self, closed: Result<Bounds, Stop>) -> Result<Opened, Stop> {
        let made = self.made;
        let book = self.book;
        let opened = closed.and_then(|bounds| settle_plainly(made, bounds, self.counts));
        let mut found = [FILL32; SLOTS];
        let told = word(entries::settle(book, &mut found));
        let masks = opened.map_or(Masks::zeros(), |opened| opened.masks);
        let mut step = self.step(Step::Settling);
        step.same(32, told as usize, plain_word(&opened));
        step.same_masks(made.size, &found, &masks);
        opened
    }

    // Steps 4 and 5: the two words of each call of the list, and the last masks.
    pub fn run(&mut self, opened: Result<Opened, Stop>, list: &[u8]) {
        let made = self.made;
        let book = self.book;
        let mut words = [FILL32; 1024];
        let mut found = [FILL32; SLOTS];
        let told = word(entries::session(book, list, &mut words, &mut found));
        self.step(Step::Calls)
            .same(512, told as usize, plain_word(&opened));
        let (calls, _) = list.as_chunks::<4>();
        let (words, _) = words.as_chunks::<2>();
        let masks = run_calls(made, opened.as_ref().ok(), calls, words, self.counts);
        self.step(Step::LastMasks)
            .same_masks(made.size, &found, &masks);
    }
}

// The word of the plain filter's answer.
fn plain_word<T>(answer: &Result<T, Stop>) -> usize {
    match answer {
        Ok(_) => 0,
        Err(stop) => stop.word() as usize,
    }
}
