// What the run of a list of calls promises, from a session or from a book's opening, as definitions and laws: no functions. specs/ has the
// definitions, proofs/ the laws.
#![tactic(auto)]

use acts::Session;

// A session after a list of calls, and whether it opened live: a bool, since that is told of every session, and none of it hangs on the flag.
#[derive(Clone, Copy)]
pub struct Ended {
    pub session: Session,
    pub live: bool,
}
