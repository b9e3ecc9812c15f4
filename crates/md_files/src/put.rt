ghost use Rattle.std.specs.Prelude.{◌≡◌, ◌+◌, ◌≤◌, ◌++◌, length, vec_len, vec_capacity};

use std::mem;

/// Appends bytes for which there is room.
#[inline(always)]
pub(crate) fn put(bytes: &[u8], into: &mut Vec<u8>)
    requires { vec_len into.old + length bytes.now ≤ vec_capacity into.old }
    ensures bytes { into.new.items ≡ into.old.items ++ bytes.now }
    ensures length { vec_len into.new ≡ vec_len into.old + length bytes.now }
    ensures room { vec_capacity into.new ≡ vec_capacity into.old }
{
    // taken out of its place, so that the compiler knows that no byte is written over its length
    let empty = Vec::new(*into.allocator());
    let mut taken = mem::replace(into, empty);
    for byte in bytes {
        taken.push_reserved(*byte);
    }
    mem::forget(mem::replace(into, taken));
}
