// A random book through the plain filter, step by step, and the words of its calls compared; what is counted is what the plain filter says: the part of
// the test program randoms that stands on both. The contracts say nothing, so it is proved to be safe and to end, and no more. Nothing is refused.
#![tactic(auto)]

use arrays::Masks;
use plain::{Answer, Bounds, Call, Opened, Refusal, Session, Side, Stop, settle};
use random_books::{Book, Comparison, Counter, Counts, FILL32, Step};

// The closed table.
pub fn close_plainly(book: &Book, counts: &mut Counts) -> Result<Bounds, Stop> {
    let mut bounds = Bounds::start(book.rows.as_slice());
    let before = bounds.width(book.size);
    bounds
        .close(book.size)
        .inspect_err(|_| counts.add(Counter::ClosedDead, 1))?;
    let moved = before.saturating_sub(bounds.width(book.size));
    counts.add(Counter::BoundsMoved, moved);
    Ok(bounds)
}

// The closed table and the settled masks of a book with that closed table.
pub fn settle_plainly(book: &Book, bounds: Bounds, counts: &mut Counts) -> Result<Opened, Stop> {
    let slots = book.size.slots;
    let mut masks = book.masks;
    settle(book.size, &bounds, &mut masks).inspect_err(|_| counts.add(Counter::SettledDead, 1))?;
    let struck = book.masks.ones(slots).saturating_sub(masks.ones(slots));
    counts.add(Counter::SettledStruck, struck);
    counts.add(Counter::Live, 1);
    Ok(Opened { bounds, masks })
}

// Makes the calls on the plain machine and compares the words of each; what is past them is what was there. The last masks.
pub fn run_calls(
    book: &Book,
    opened: Option<&Opened>,
    calls: &[[u8; 4]],
    words: &[[u32; 2]],
    counts: &mut Counts,
) -> Masks {
    let mut session = Session::open(book.size, book.idle, opened);
    for (i, found) in words.iter().enumerate() {
        let wanted = match calls.get(i) {
            Some(call) => answer_call(&mut session, *call, counts),
            None => [FILL32; 2],
        };
        Comparison::new(book.number, Step::Calls, counts).same_words(i, *found, wanted);
    }
    *session.masks()
}

// Makes a call and counts what it answers. Its two words.
fn answer_call(session: &mut Session, call: [u8; 4], counts: &mut Counts) -> [u32; 2] {
    counts.add(Counter::Calls, 1);
    match make_call(session, call) {
        Ok(answer) => {
            tell_answer(answer, counts);
            answer.words()
        }
        Err(refusal) => {
            counts.add(counter_of(refusal), 1);
            [refusal.word(), 0]
        }
    }
}

fn make_call(session: &mut Session, call: [u8; 4]) -> Result<Answer, Refusal> {
    session.make_call(Call::try_from(call)?)
}

// Counts an answer.
fn tell_answer(answer: Answer, counts: &mut Counts) {
    match answer {
        Answer::Struck(struck) => {
            counts.add(Counter::LiveDecisions, 1);
            counts.add(Counter::Struck, struck as usize);
        }
        Answer::Stopped(Stop::Dead) => counts.add(Counter::DeadDecisions, 1),
        Answer::Stopped(Stop::Rounds) => {}
        Answer::Mask(mask) => counts.add_if(Counter::Shown, mask),
        Answer::Walls(Side::Upper, walls) => counts.add_if(Counter::UpperWalls, walls),
        Answer::Walls(Side::Lower, walls) => counts.add_if(Counter::LowerWalls, walls),
        Answer::Done => counts.add(Counter::MarksAndBacks, 1),
    }
}

// What counts a refusal.
fn counter_of(refusal: Refusal) -> Counter {
    match refusal {
        Refusal::Kind => Counter::RefusedKind,
        Refusal::Slot => Counter::RefusedSlot,
        Refusal::Type => Counter::RefusedType,
        Refusal::NoOpenMark => Counter::RefusedBack,
        Refusal::WhileDead => Counter::RefusedDead,
        Refusal::TooManyMarks => Counter::RefusedMark,
    }
}
