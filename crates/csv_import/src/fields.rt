// The fields of a CSV text, one at a time: a place in the text goes in, and what was found comes back with the place behind it.
// A field that breaks RFC 4180 is refused, by 17. The contracts cite csv_model's `specs/Csv.antt` through `specs/Part.antt`.
ghost use Rattle.std.specs.Prelude.{◌≡◌, true, ◌+◌, ◌<◌, ◌≤◌, length, drop};
ghost use Rattle.csv_model.specs.Csv as Csv;
ghost use Rattle.csv_model.specs.Rfc.{is_mark};
ghost use Rattle.csv_import.specs.Part.{FigureFits, PartOf, width_of};

use crate::{DIGITS_MOST, Part};
use answer::Refusal;
use csv_model::Figure;

const LF: u8 = 10;

const CR: u8 = 13;

const QUOTE: u8 = 34;

const COMMA: u8 = 44;

const ZERO: u8 = 48;

const NINE: u8 = 57;

// The field that begins at a place.
pub fn field(text: &[u8], at: usize) -> Result<Part, Refusal>
    requires { at ≤ length text.now }
    ensures { PartOf (Csv.field (drop at text.now)) text.now result }
{
    if at < text.len() && text[at] == QUOTE {
        return quoted(text, at + 1);
    }
    bare(text, at)
}

// A field without quotes: it goes to the next mark or to the end.
fn bare(text: &[u8], from: usize) -> Result<Part, Refusal>
    requires { from ≤ length text.now }
    ensures { PartOf (Csv.bare Csv.nothing (drop from text.now)) text.now result }
{
    let mut figure = nothing();
    for at in from..text.len() {
        let b = text[at];
        if is_mark(b) {
            return ended(text, at, figure);
        }
        figure = more(figure, b);
    }
    ended(text, text.len(), figure)
}

// A quoted field, from behind its first quote: it goes to the quote that no second one follows.
fn quoted(text: &[u8], from: usize) -> Result<Part, Refusal>
    requires { from ≤ length text.now }
    ensures { PartOf (Csv.quoted true Csv.nothing (drop from text.now)) text.now result }
{
    let mut at = from;
    let mut figure = nothing();
    // A `while`, since a doubled quote takes two bytes.
    while at < text.len() {
        match width(text, at) {
            Some(width) => {
                figure = more(figure, text[at]);
                at += width;
            }
            None => return ended(text, at + 1, figure),
        }
    }
    Err(Refusal::Quoting)
}

// How many bytes the content byte at a place takes inside quotes: 2 for a doubled quote. None where it is the quote that closes.
fn width(text: &[u8], at: usize) -> Option<usize>
    requires { at < length text.now }
    ensures { result ≡ width_of text.now at }
{
    if text[at] != QUOTE {
        return Some(1);
    }
    if text.len() - at < 2 {
        return None;
    }
    if text[at + 1] == QUOTE { Some(2) } else { None }
}

// The field with this figure whose content ends at a place.
fn ended(text: &[u8], at: usize, figure: Figure) -> Result<Part, Refusal>
    requires { (at ≤ length text.now) × FigureFits figure }
    ensures { PartOf (Csv.ended figure (drop at text.now)) text.now result }
{
    if at == text.len() {
        return Ok(Part {
            figure,
            last: true,
            next: at,
        });
    }
    if text[at] == COMMA {
        return Ok(Part {
            figure,
            last: false,
            next: at + 1,
        });
    }
    if text.len() - at < 2 {
        return Err(Refusal::Quoting);
    }
    if text[at] != CR {
        return Err(Refusal::Quoting);
    }
    if text[at + 1] != LF {
        return Err(Refusal::Quoting);
    }
    Ok(Part {
        figure,
        last: true,
        next: at + 2,
    })
}

// The figure of an empty content.
fn nothing() -> Figure
    ensures { result ≡ Csv.nothing }
{
    Figure { count: 0, value: 0 }
}

// The figure of a content with one byte more.
fn more(figure: Figure, b: u8) -> Figure
    requires { FigureFits figure }
    ensures { (result ≡ Csv.more figure b) × FigureFits result }
{
    if ZERO <= b && b <= NINE && figure.count < DIGITS_MOST {
        return Figure {
            count: figure.count + 1,
            value: 10 * figure.value + usize::from(b - ZERO),
        };
    }
    Figure { count: 6, value: 0 }
}

// Whether a byte ends a bare field, or breaks it.
fn is_mark(b: u8) -> bool
    ensures { result ≡ is_mark b }
{
    b == COMMA || b == CR || b == LF || b == QUOTE
}
