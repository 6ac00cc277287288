// randoms: random books and call lists through the engine's typed entries and through the plain filter of the crate plain, compared in all
// that is written: answers, both tables, masks, both words of each call, last masks. Prints counts, all of them taken from the plain
// filter, which show that each kind of case came up, and the number of differences; if there is one, then of the first one the book, the
// step (1 check, 2 closing, 3 settling, 4 calls, 5 last masks) and the place (entry, slot or call). This is a test and no proof.
//
// The file stdout was not written by this program. A program in Rust, which is not kept here, made the same books and calls from the same
// random numbers, ran them through host/plain-filter, which has no code in common with the crate plain, and printed these counts.
#![tactic(auto)]

mod compare; // compare.rt: the engine against the plain filter, step by step

use compare::Trial;
use random_books::{Counter, Counts, Random, make_book, make_calls};
use std::io;

// The books of a run.
const BOOKS: usize = 2000;

fn main(rt: HostRuntime) -> io::Result<()> {
    let mut counts = Counts::new();
    let mut random = Random::new(2026);
    for number in 0..BOOKS {
        try_book(&mut random, number, &mut counts);
    }
    print!(rt; "{counts}")
}

// Makes a book and a call list, and compares what the engine and the plain filter make of them.
fn try_book(random: &mut Random, number: usize, counts: &mut Counts) {
    let made = make_book(random, number);
    let calls = make_calls(random, number, made.size);
    let bytes = made.bytes();
    counts.add(Counter::Books, 1);
    let mut trial = Trial {
        made: &made,
        book: bytes.as_slice(),
        counts,
    };
    trial.check();
    let closed = trial.close();
    let opened = trial.settle(closed);
    trial.run(opened, calls.as_slice());
}
