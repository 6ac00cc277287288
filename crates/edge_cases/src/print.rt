// The words that print what an entry wrote, each after its own name; an element that was not written is printed as -.
//   lowers i j, uppers i j, masks i j     elements i to j - 1
//   words i j                             the two words of each call, i to j - 1
//   totals                                the sums of the lowers and of the uppers that were written
//   kept                                  how many lowers, uppers, words and masks were not written
//   equal x                               how many masks are x
//   tally x                               how many words are x
use crate::outputs::{Outputs, UNWRITTEN, UNWRITTEN_WORD};
use crate::scan::{Show, Step};
use std::io::Write;
use std::{fmt, io};

impl Outputs {
    // Carries out a word.
    pub fn show(&self, out: &mut impl Write, show: Show, step: Step<'_>) -> io::Result<()> {
        step.show(out)?;
        match show {
            Show::Lowers => show_elements(out, &self.lowers, step),
            Show::Uppers => show_elements(out, &self.uppers, step),
            Show::Masks => show_elements(out, &self.masks, step),
            Show::Words => show_calls(out, &self.words, step),
            Show::Totals => {
                show_number(out, sum(&self.lowers))?;
                show_number(out, sum(&self.uppers))
            }
            Show::Kept => self.show_kept(out),
            Show::Equal => show_number(out, count(&self.masks, step.number(1))),
            Show::Tally => show_number(out, count(&self.words, step.number(1))),
        }
    }

    fn show_kept(&self, out: &mut impl Write) -> io::Result<()> {
        show_number(out, count(&self.lowers, UNWRITTEN))?;
        show_number(out, count(&self.uppers, UNWRITTEN))?;
        show_number(out, count(&self.words, UNWRITTEN_WORD))?;
        show_number(out, count(&self.masks, UNWRITTEN_WORD))
    }
}

// Elements i to j - 1, for the step's numbers i and j: by their numbers, since those past the array's end are printed too, as 0.
fn show_elements<T: Copy + Into<u32>>(
    out: &mut impl Write,
    a: &[T],
    step: Step<'_>,
) -> io::Result<()> {
    for i in step.number(1)..step.number(2) {
        show_number(out, element(a, i as usize))?;
    }
    Ok(())
}

// The words of calls i to j - 1, for the step's numbers i and j.
fn show_calls(out: &mut impl Write, words: &[u32], step: Step<'_>) -> io::Result<()> {
    for i in step.number(1)..step.number(2) {
        match words.get(2 * i as usize..) {
            Some([first, second, ..]) => show_call(out, *first, *second)?,
            _ => out.write_all(b" (0)")?,
        }
    }
    Ok(())
}

// The two words of a call. Text and numbers apart, here and below: a format of both takes half as long again.
fn show_call(out: &mut impl Write, first: u32, second: u32) -> io::Result<()> {
    out.write_all(b" (")?;
    write!(out, "{}", Shown(first))?;
    show_number(out, second)?;
    out.write_all(b")")
}

// A space and a number.
pub fn show_number(out: &mut impl Write, x: u32) -> io::Result<()> {
    out.write_all(b" ")?;
    write!(out, "{}", Shown(x))
}

// A number as it is printed, - for what was not written.
#[derive(Clone, Copy)]
struct Shown(u32);

impl fmt::Display for Shown {
    fn fmt<W: fmt::Write>(&self, f: &mut fmt::Formatter<W>) -> fmt::Result {
        let x = self.0;
        if x == UNWRITTEN_WORD {
            f.write_str("-")
        } else {
            write!(f, "{x}")
        }
    }
}

// Element i, or 0 where there is none.
fn element<T: Copy + Into<u32>>(a: &[T], i: usize) -> u32 {
    a.get(i).copied().map_or(0, |x| x.into())
}

// How many elements are x; it fits. A loop, since `filter` and `count` were tried, and nearly double what the word costs.
fn count<T: Copy + PartialEq>(a: &[T], x: T) -> u32 {
    let mut total = 0u32;
    for y in a {
        if *y == x {
            total = total.wrapping_add(1);
        }
    }
    total
}

// The sum of the elements that were written; it fits.
fn sum(a: &[u16]) -> u32 {
    a.iter()
        .filter(|x| **x != UNWRITTEN)
        .fold(0u32, |total, x| total.wrapping_add(u32::from(*x)))
}
