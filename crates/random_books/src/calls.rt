// Random call lists: all seven kinds, unknown kinds, slots and types within and out of range. Each 37th list is long and has more marks
// than may be open.
use crate::bytes::Bytes;
use crate::random::Random;
use arrays::Size;

// The kinds of calls. They are bytes and no enum, since a list has unknown kinds too.
const ASSIGN: usize = 1;

const REMOVE: usize = 2;

const MARK: usize = 3;

const BACK: usize = 4;

const SHOW: usize = 5;

const UPPER_WALLS: usize = 6;

const LOWER_WALLS: usize = 7;

// How many calls the book's list has.
fn call_count(number: usize) -> usize {
    if number % 37 == 0 { 480 } else { 40 }
}

// The list for a book.
pub fn make_calls(random: &mut Random, number: usize, size: Size) -> Bytes {
    let mut calls = Bytes::new();
    let count = call_count(number);
    for i in 0..count {
        let marking = i < 4 || i.saturating_add(160) < count;
        calls.put(1, make_kind(random, marking));
        calls.put(1, make_type(random, size.types));
        calls.put(2, make_slot(random, size.slots));
    }
    calls
}

// A kind: for the first four calls, and for a long list but for its last 160, mostly marks; else one of all, with three unknown ones.
fn make_kind(random: &mut Random, marking: bool) -> usize {
    let drawn = random.below(32);
    if marking {
        return marking_kind(drawn);
    }
    match drawn {
        0..=2 => ASSIGN,
        3..=10 => REMOVE,
        11..=15 => MARK,
        16..=20 => BACK,
        21..=22 => SHOW,
        23..=25 => UPPER_WALLS,
        26..=28 => LOWER_WALLS,
        29 => 0,
        30 => 8,
        _ => 200,
    }
}

fn marking_kind(drawn: usize) -> usize {
    match drawn {
        0..=27 => MARK,
        28..=29 => REMOVE,
        _ => UPPER_WALLS,
    }
}

fn make_type(random: &mut Random, types: usize) -> usize {
    if random.in_eight(1) {
        return random.below(256);
    }
    random.below(types)
}

fn make_slot(random: &mut Random, slots: usize) -> usize {
    if random.in_eight(1) {
        return random.below(600);
    }
    random.below(slots)
}
