// The parts of call i of a list, read from its bytes. The contracts cite probe_model's `specs/Probe.antt`.
ghost use Rattle.std.specs.Prelude.{◌≡◌, ◌+◌, ◌*◌, ◌≤◌, ◌<◌, length};
ghost use Rattle.probe_model.specs.Probe.{kind_in, call_value, call_slot};

use book::{byte, read16};

pub fn kind_in(calls: &[u8], i: usize) -> usize
    requires { 4 * i + 4 ≤ length calls.now }
    ensures { result ≡ kind_in calls.now i }
{
    byte(calls, 4 * i)
}

pub fn value_in(calls: &[u8], i: usize) -> usize
    requires { 4 * i + 4 ≤ length calls.now }
    ensures { (result ≡ call_value calls.now i) × (result < 256) }
{
    byte(calls, 4 * i + 1)
}

pub fn slot_in(calls: &[u8], i: usize) -> usize
    requires { 4 * i + 4 ≤ length calls.now }
    ensures { result ≡ call_slot calls.now i }
{
    read16(calls, 4 * i + 2)
}
