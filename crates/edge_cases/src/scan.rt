// A line of the cases: its name, and its steps, each a word with numbers after it. A word is told by its first and third letter, which differ for any
// two words here.
ghost use Rattle.std.specs.Prelude.{◌≡◌, ◌++◌, ◌≤◌, length, IfSome};
ghost use Rattle.std.specs.Iterator.{at_most};

use std::io;
use std::io::Write;

// What a step's word says.
#[derive(Clone, Copy)]
pub enum Command {
    Make(Make),
    Run(Entry),
    Show(Show),
}

// The words that make the book and the call list of a line: cases.rt.
#[derive(Clone, Copy)]
pub enum Make {
    Sample,
    Book,
    Row,
    Grid,
    Put,
    Lend,
    Call,
    Repeat,
    Trim,
}

// The words that run an entry, or all: `edges`.
#[derive(Clone, Copy)]
pub enum Entry {
    Check,
    Close,
    Settle,
    Session,
    Numbers,
}

// The words that print what an entry wrote: print.rt.
#[derive(Clone, Copy)]
pub enum Show {
    Lowers,
    Uppers,
    Masks,
    Words,
    Totals,
    Kept,
    Equal,
    Tally,
}

// The two parts of a line.
#[derive(Clone, Copy)]
pub struct Line<'a> {
    // up to the first colon, with it
    pub name: &'a [u8],
    // what comes after it
    rest: &'a [u8],
}

impl<'a> Line<'a> {
    // None where the text has no name: no colon, or a # before the first.
    pub fn parse(text: &'a [u8]) -> Option<Line<'a>>
        ensures { IfSome result (λ line. line.name.now ++ line.rest.now ≡ text.now) }
    {
        let end = text.iter().position(|x| *x == b':' || *x == b'#')?;
        let (name, rest) = text.split_at(end + 1);
        if name.ends_with(b":") {
            Some(Line { name, rest })
        } else {
            None
        }
    }

    // The line's steps, first to last.
    pub fn steps(self) -> Steps<'a>
        ensures { result.rest.now ≡ self.entry.rest.now }
    {
        Steps { rest: self.rest }
    }
}

// The steps that are left of a line: each begins at a letter after a space.
#[derive(Clone, Copy)]
pub struct Steps<'a> {
    rest: &'a [u8],
}

impl<'a> Iterator for Steps<'a> {
    type Item = Step<'a>;

    ghost remaining = { λ s. at_most (length s.rest.now) };

    fn next(&mut self) -> Option<Step<'a>> {
        let space = self
            .rest
            .windows(2)
            .position(|pair| pair[0] == b' ' && pair[1].is_ascii_lowercase())?;
        self.rest = &self.rest[space + 1..];
        Some(Step { text: self.rest })
    }
}

// A word and what follows it in its line.
#[derive(Clone, Copy)]
pub struct Step<'a> {
    text: &'a [u8],
}

impl<'a> Step<'a> {
    // None where its letters are those of no word.
    pub fn command(self) -> Option<Command>
        ensures { IfSome result (λ _. 3 ≤ length self.entry.text.now) }
    {
        let [first, _, third, ..] = self.text else {
            return None;
        };
        let command = match (*first, *third) {
            (b's', b'm') => Command::Make(Make::Sample),
            (b'b', b'o') => Command::Make(Make::Book),
            (b'r', b'w') => Command::Make(Make::Row),
            (b'g', b'i') => Command::Make(Make::Grid),
            (b'p', b't') => Command::Make(Make::Put),
            (b'l', b'n') => Command::Make(Make::Lend),
            (b'c', b'l') => Command::Make(Make::Call),
            (b'r', b'p') => Command::Make(Make::Repeat),
            (b't', b'i') => Command::Make(Make::Trim),
            (b'c', b'e') => Command::Run(Entry::Check),
            (b'c', b'o') => Command::Run(Entry::Close),
            (b's', b't') => Command::Run(Entry::Settle),
            (b's', b's') => Command::Run(Entry::Session),
            (b'n', b'm') => Command::Run(Entry::Numbers),
            (b'l', b'w') => Command::Show(Show::Lowers),
            (b'u', b'p') => Command::Show(Show::Uppers),
            (b'm', b's') => Command::Show(Show::Masks),
            (b'w', b'r') => Command::Show(Show::Words),
            (b't', b't') => Command::Show(Show::Totals),
            (b'k', b'p') => Command::Show(Show::Kept),
            (b'e', b'u') => Command::Show(Show::Equal),
            (b't', b'l') => Command::Show(Show::Tally),
            _ => return None,
        };
        Some(command)
    }

    // Number i of those after the word, counted from 1; 0 where the line has no more. Nothing here has more than 32 bits.
    pub fn number(self, i: usize) -> u32 {
        let digits = self.text.split(|x| *x == b' ').nth(i).unwrap_or(&[]);
        digits.iter().fold(0u32, |value, digit| {
            value
                .wrapping_mul(10)
                .wrapping_add(u32::from(digit.wrapping_sub(b'0')))
        })
    }

    // Its letters.
    fn word(self) -> &'a [u8] {
        let end = self.text.iter().position(|x| !x.is_ascii_lowercase());
        &self.text[..end.unwrap_or(self.text.len())]
    }

    // Prints a space and the word.
    pub fn show(self, out: &mut impl Write) -> io::Result<()> {
        out.write_all(b" ")?;
        out.write_all(self.word())
    }
}
