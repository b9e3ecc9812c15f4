ghost use Rattle.std.specs.Prelude.{◌≡◌, ◌+◌, ◌≤◌, ◌++◌, length, vec_capacity, vec_len};
ghost use Rattle.debug_text.specs.Replies as replies;

use itoa::Buffer;

/// Appends bytes for which there is room.
fn put(bytes: &[u8], into: &mut Vec<u8>)
    requires { vec_len into.old + length bytes.now ≤ vec_capacity into.old }
    ensures bytes { into.new.items ≡ into.old.items ++ bytes.now }
    ensures length { vec_len into.new ≡ vec_len into.old + length bytes.now }
    ensures room { vec_capacity into.old ≤ vec_capacity into.new }
{
    match into.extend_from_slice(bytes) {
        Ok(()) => {}
        Err(_) => unreachable!(),
    }
}

/// Appends the reply to a command that moves the machine: the cycle of its next event. There is room for
/// 24 bytes.
pub fn put_cycle(cycle: u64, into: &mut Vec<u8>)
    requires { vec_len into.old + 24 ≤ vec_capacity into.old }
    ensures { into.new.items ≡ into.old.items ++ replies.cycle_reply cycle }
{
    let mut digits = Buffer::new();
    put(b"at ", into);
    put(digits.format(cycle).as_bytes(), into);
    put(b"\n", into);
}
