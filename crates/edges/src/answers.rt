// The words that run an entry on the book and the call list of a line, and print its answer after their own name: 0 (live, or a good book), 1 (dead)
// or 256 + the number of a refusal. What was written can then be printed, see print.rt of edge_cases.
//   check
//   close a b         lent a lowers and b uppers, of 8,225 each: 32 * 257 and one more
//   settle m          lent m masks of 257
//   session w m       lent w words, of 8,194, and m masks
//   numbers           check, close 1 1, settle 1 and session 1 1 in a row
// Every element of an entry's outputs is 9999 before it runs, which no bound, mask or word here is; those that are not lent too. Where a word asks for
// more elements than there are, no entry is run and - is printed for its answer.
use answer::{Verdict, word};
use edge_cases::{Command, Entry, Line, Outputs, Step, UNWRITTEN, UNWRITTEN_WORD, show_number};
use std::io;
use std::io::Write;

// What is lent of the book and of the call list of a line.
#[derive(Clone, Copy)]
pub struct Inputs<'a> {
    pub book: &'a [u8],
    pub calls: &'a [u8],
}

impl<'a> Inputs<'a> {
    // Carries out each word of the line that runs an entry or prints what it wrote.
    pub fn run_line(self, out: &mut impl Write, line: Line<'_>) -> io::Result<()> {
        let mut outputs = Outputs::zeros();
        outputs.clear();
        for step in line.steps() {
            match step.command() {
                Some(Command::Run(entry)) => self.run(out, entry, step, &mut outputs)?,
                Some(Command::Show(show)) => outputs.show(out, show, step)?,
                Some(Command::Make(_)) | None => {}
            }
        }
        out.write_all(b"\n")
    }

    // Carries out a word that runs an entry.
    fn run(
        self,
        out: &mut impl Write,
        entry: Entry,
        step: Step<'_>,
        outputs: &mut Outputs,
    ) -> io::Result<()> {
        step.show(out)?;
        match entry {
            Entry::Check => show_number(out, check_word(self.book)),
            Entry::Close => show_answer(out, self.close(step, outputs)),
            Entry::Settle => show_answer(out, self.settle(step, outputs)),
            Entry::Session => show_answer(out, self.session(step, outputs)),
            Entry::Numbers => self.show_numbers(out),
        }
    }

    // The answer of close; None where the step asks for more elements than there are.
    fn close(self, step: Step<'_>, outputs: &mut Outputs) -> Option<u32> {
        outputs.lowers.fill(UNWRITTEN);
        outputs.uppers.fill(UNWRITTEN);
        let lowers = outputs.lowers.get_mut(..step.number(1) as usize)?;
        let uppers = outputs.uppers.get_mut(..step.number(2) as usize)?;
        Some(word(entries::close(self.book, lowers, uppers)))
    }

    // The answer of settle; None where the step asks for more elements than there are.
    fn settle(self, step: Step<'_>, outputs: &mut Outputs) -> Option<u32> {
        outputs.masks.fill(UNWRITTEN_WORD);
        let masks = outputs.masks.get_mut(..step.number(1) as usize)?;
        Some(word(entries::settle(self.book, masks)))
    }

    // The answer of session; None where the step asks for more elements than there are.
    fn session(self, step: Step<'_>, outputs: &mut Outputs) -> Option<u32> {
        outputs.words.fill(UNWRITTEN_WORD);
        outputs.masks.fill(UNWRITTEN_WORD);
        let words = outputs.words.get_mut(..step.number(1) as usize)?;
        let masks = outputs.masks.get_mut(..step.number(2) as usize)?;
        Some(word(entries::session(self.book, self.calls, words, masks)))
    }

    // Prints the answers of all four entries, lent one element for each output.
    fn show_numbers(self, out: &mut impl Write) -> io::Result<()> {
        let mut lowers = [UNWRITTEN];
        let mut uppers = [UNWRITTEN];
        let mut words = [UNWRITTEN_WORD];
        let mut masks = [UNWRITTEN_WORD];
        show_number(out, check_word(self.book))?;
        show_number(
            out,
            word(entries::close(self.book, &mut lowers, &mut uppers)),
        )?;
        show_number(out, word(entries::settle(self.book, &mut masks)))?;
        show_number(
            out,
            word(entries::session(self.book, self.calls, &mut words, &mut masks)),
        )
    }
}

// Prints an entry's answer, or - where none was run.
fn show_answer(out: &mut impl Write, answer: Option<u32>) -> io::Result<()> {
    match answer {
        Some(number) => show_number(out, number),
        None => out.write_all(b" -"),
    }
}

// Check's answer.
fn check_word(book: &[u8]) -> u32 {
    word(entries::check(book).map(|()| Verdict::Live))
}
