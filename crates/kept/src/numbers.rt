// A session in the seven numbers of its memory: slots, types, calls made, standing, its call, open marks, and the trail's height with 65536 times the idle
// byte. The contracts cite kept_model's `specs/Memory.antt`.
ghost use Rattle.std.specs.Prelude.{◌≡◌, ◌+◌, ◌*◌, ◌/◌, ◌%◌, ◌<◌, length, get_or};
ghost use Rattle.kept_model.specs.Memory.{standing_number, dead_call, standing_by_number, numbers_of, session_in};

use acts::{Session, Standing};

// How many numbers there are, and where each stands.
pub const NUMBERS: usize = 7;

pub const SLOTS: usize = 0;

pub const TYPES: usize = 1;

pub const MADE: usize = 2;

const STANDING: usize = 3;

const DEAD_CALL: usize = 4;

const MARKS: usize = 5;

const TOP_AND_IDLE: usize = 6;

pub fn number_at(numbers: &[usize], i: usize) -> usize
    requires { i < length numbers.now }
    ensures { result ≡ get_or numbers.now i 0 }
{
    numbers[i]
}

// The session that the numbers stand for.
pub fn session_in(numbers: &[usize]) -> Session
    requires { length numbers.now ≡ 7 }
    ensures { result ≡ session_in numbers.now }
{
    let number = number_at(numbers, STANDING);
    let call = number_at(numbers, DEAD_CALL);
    let standing = standing_by_number(number, call);
    let both = number_at(numbers, TOP_AND_IDLE);
    let marks = number_at(numbers, MARKS);
    let idle = idle_in(both);
    Session {
        standing,
        top: both % 65536,
        marks,
        idle,
    }
}

// The standing of a number: 0 live, 1 dead since the call, else opened dead.
#[tactic(auto, unfolding(kept_model::specs::Memory::standing_by_number))]
fn standing_by_number(number: usize, call: usize) -> Standing
    ensures { result ≡ standing_by_number number call }
{
    match number {
        0 => Standing::Live,
        1 => Standing::Dead(call),
        _ => Standing::OpenedDead,
    }
}

// Writes a session of so many slots and types after so many calls.
pub fn write_numbers(numbers: &mut [usize], n: usize, k: usize, made: usize, session: Session)
    requires { (length numbers.old ≡ 7) × (session.top < 65536) × (session.idle < 256) }
    ensures { numbers.new ≡ numbers_of n k made session }
{
    let standing = session.standing;
    let top = session.top;
    let idle = session.idle;
    numbers[TOP_AND_IDLE] = top_and_idle(top, idle);
    numbers[SLOTS] = n;
    numbers[TYPES] = k;
    numbers[MADE] = made;
    numbers[STANDING] = standing_number(standing);
    numbers[DEAD_CALL] = dead_call(standing);
    numbers[MARKS] = session.marks;
}

// The trail's height, with 65536 times the idle byte.
fn top_and_idle(top: usize, idle: usize) -> usize
    requires { (top < 65536) × (idle < 256) }
    ensures { result ≡ idle * 65536 + top }
{
    idle * 65536 + top
}

// The idle byte in such a number.
fn idle_in(number: usize) -> usize
    ensures { result ≡ number / 65536 % 256 }
{
    number / 65536 % 256
}

fn standing_number(standing: Standing) -> usize
    ensures { result ≡ standing_number standing }
{
    match standing {
        Standing::Live => 0,
        Standing::Dead(_) => 1,
        Standing::OpenedDead => 2,
    }
}

// The call that a session is dead since; 0 for one that is not.
fn dead_call(standing: Standing) -> usize
    ensures { result ≡ dead_call standing }
{
    match standing {
        Standing::Live => 0,
        Standing::Dead(call) => call,
        Standing::OpenedDead => 0,
    }
}
