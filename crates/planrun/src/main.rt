// planrun: runs the calls of calls.bin on a session of the book of book.bin, both in the working folder, and prints the answers and the last
// masks, or the number that refuses the two. A file that cannot be opened counts as empty. Where a read fails, what was read before it counts as
// the file: nothing, if it is the first read. Of a longer file than any good one just enough is read that its length refuses it. Where a
// write fails, planrun ends with that error. What is printed is tested, not proved: the work is `session::run_session`.
#![tactic(auto)]

ghost use Rattle.std.specs.Prelude.{◌*◌, ◌≤◌, length};

use answer::{Refusal, Verdict};
use entries_model::FULL_LIMITS;
use full_reads::read_full;
use session::run_session;
use std::rt::Files;
use std::{fs, io};

fn main(rt: HostRuntime) -> io::Result<()> {
    let mut book = [0u8; 9229];
    let mut calls = [0u8; 16385];
    let mut answers = [0u32; 8192];
    let mut masks = [0u32; 256];
    let book_end = read_file(&rt, "book.bin", &mut book);
    let calls_end = read_file(&rt, "calls.bin", &mut calls);
    let answer = run_session(
        &book[..book_end],
        FULL_LIMITS,
        &calls[..calls_end],
        &mut answers,
        &mut masks,
    );
    let n = mask_count(&book[..book_end]);
    let count = calls_end / 4;
    report(&rt, answer, &answers, count, &masks, n)
}

// Reads the file into the front of buf, as far as it goes or buf has room. How many bytes were read.
fn read_file(rt: &impl Files, path: &str, buf: &mut [u8]) -> usize
    ensures { result ≤ length buf.new }
{
    match fs::open(rt, path) {
        Ok(mut file) => read_full(&mut file, buf),
        Err(_) => 0,
    }
}

// The number of slots of a book, at most 256.
fn mask_count(book: &[u8]) -> usize
    ensures { result ≤ 256 }
{
    if book.len() < 12 {
        return 0;
    }
    book::slots(book).min(256)
}

// Prints what the session answered.
fn report(
    rt: &impl Print,
    answer: Result<Verdict, Refusal>,
    answers: &[u32],
    count: usize,
    masks: &[u32],
    n: usize,
) -> io::Result<()>
    requires words { 2 * count ≤ length answers.now }
    requires slots { n ≤ length masks.now }
{
    match answer {
        Ok(Verdict::Live) => println!(rt; "open 0")?,
        Ok(Verdict::Dead) => println!(rt; "open 1")?,
        Err(refusal) => return println!(rt; "refused {}", u32::from(refusal)),
    }
    print_answers(rt, answers, count)?;
    print_masks(rt, masks, n)
}

// A line for each call: its index and its two words.
fn print_answers(rt: &impl Print, answers: &[u32], count: usize) -> io::Result<()>
    requires { 2 * count ≤ length answers.now }
{
    for i in 0..count {
        let first = answers[2 * i];
        let second = answers[2 * i + 1];
        println!(rt; "{i} {first} {second}")?;
    }
    Ok(())
}

// One line: the masks.
fn print_masks(rt: &impl Print, masks: &[u32], n: usize) -> io::Result<()>
    requires { n ≤ length masks.now }
{
    print!(rt; "masks")?;
    for mask in &masks[..n] {
        print!(rt; " {mask}")?;
    }
    println!(rt)
}
