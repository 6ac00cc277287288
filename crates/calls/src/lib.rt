// A call from its bytes, and what refuses it. The contracts cite `specs/Given.antt`, `specs/Refuses.antt`, and `call_of` and `call_at` of
// session_model.
#![tactic(auto)]

ghost use Rattle.std.specs.Prelude.{◌≡◌};
ghost use Rattle.session_model.specs.Calls.{call_of};
ghost use Rattle.calls.specs.Given.{call_given};

mod bytes; // bytes.rt: a call from its bytes
mod refuse; // refuse.rt: what refuses a call

pub use bytes::call_at;
pub use refuse::check_call;

// A call, with the fields that its kind uses.
#[derive(Clone, Copy, PartialEq, Eq)]
pub enum Call {
    Unknown,
    Assign { slot: usize, value: u32 },
    Remove { slot: usize, value: u32 },
    Mark,
    Back,
    Show { slot: usize },
    UpperWalls { value: u32 },
    LowerWalls { value: u32 },
}

impl Call {
    // The call of document 01's kind, a type and a slot: kinds 1 to 7 are known, and no other.
    #[tactic(auto, unfolding(session_model::specs::Calls::call_of))]
    pub fn new(kind: u32, value: u32, slot: usize) -> Call
        ensures { call_given result ≡ call_of kind value slot }
    {
        match kind {
            1 => Call::Assign { slot, value },
            2 => Call::Remove { slot, value },
            3 => Call::Mark,
            4 => Call::Back,
            5 => Call::Show { slot },
            6 => Call::UpperWalls { value },
            7 => Call::LowerWalls { value },
            0 | 8..=4294967295 => Call::Unknown,
        }
    }
}
