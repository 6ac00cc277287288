// A call from its bytes. The contract cites `call_at` of session_model.
ghost use Rattle.std.specs.Prelude.{◌≡◌, ◌+◌, ◌*◌, ◌≤◌, ◌<◌, length, get_or};
ghost use Rattle.session_model.specs.Calls.{call_at};
ghost use Rattle.calls.specs.Given.{call_given};

use crate::Call;

// Call i of the list.
pub fn call_at(calls: &[u8], i: usize) -> Call
    requires { 4 * i + 4 ≤ length calls.now }
    ensures { call_given result ≡ call_at calls.now i }
{
    let at = 4 * i;
    let kind = byte(calls, at) as u32;
    let value = byte(calls, at + 1) as u32;
    let slot = byte(calls, at + 2) + 256 * byte(calls, at + 3);
    Call::new(kind, value, slot)
}

fn byte(s: &[u8], i: usize) -> usize
    requires { i < length s.now }
    ensures { (result ≡ get_or s.now i 0) × (result < 256) }
{
    s[i] as usize
}
