// edges: runs the four typed entries at the edges of document 01's limits. The cases stand in the file `stdin`, one on a line, with the reason for
// what each must answer; the file `stdout` was written from document 01. What is printed is compared with it and not proved: the contracts say no
// more than safety needs, and what does not fit an array is left out.
// A line is a name and a colon, which are printed, and then words with numbers after them, parted by single spaces. A line that begins with # is none.
#![tactic(auto)]

mod answers; // answers.rt: words that run an entry and print its answer

use answers::Inputs;
use edge_cases::{Case, Line};
use full_reads::read_full;
use std::io;
use std::io::Write;

// The most bytes of the cases that are read.
const TEXT_BYTES: usize = 32_768;

fn main(rt: HostRuntime) -> io::Result<()> {
    let mut text = [0u8; TEXT_BYTES];
    let end = read_full(&mut rt.reader(), &mut text);
    run_lines(&mut io::writer(&rt), &text[..end])
}

// Runs each line that has a name.
fn run_lines(out: &mut impl Write, text: &[u8]) -> io::Result<()> {
    for text in text.split(|x| *x == b'\n') {
        if let Some(line) = Line::parse(text) {
            run_line(out, line)?;
        }
    }
    Ok(())
}

// Prints the name, makes book and calls, runs the entries on what is lent of them.
fn run_line(out: &mut impl Write, line: Line<'_>) -> io::Result<()> {
    let mut case = Case::blank();
    out.write_all(line.name)?;
    case.make(line);
    match (case.book(), case.calls()) {
        (Some(book), Some(calls)) => Inputs { book, calls }.run_line(out, line),
        _ => Ok(()),
    }
}
