ghost use Rattle.std.specs.Prelude.{◌≡◌, ◌+◌, ◌≤◌, ◌++◌, replicate, vec_len, vec_capacity};
ghost use Rattle.std.specs.Int.{w16, to_be_bytes};

use md_fields::{Field, put};

/// How many bytes keep 1,024 writes, at most.
const MOST: usize = 12_288;

/// So many bytes of 0.
static ZEROS: [u8; MOST] = [0; MOST];

/// Appends how many writes there are.
#[tactic(auto, unfolding(md_fields::specs::Fields::spelling))]
pub fn put_count(count: u16, into: &mut Vec<u8>)
    requires { vec_len into.old + 2 ≤ vec_capacity into.old }
    ensures bytes { into.new.items ≡ into.old.items ++ to_be_bytes w16 count }
    ensures length { vec_len into.new ≡ vec_len into.old + 2 }
    ensures room { vec_capacity into.old ≤ vec_capacity into.new }
{
    put(&[Field::Word(count, true)], into);
}

/// Appends so many bytes of 0, for the places that hold no write.
#[tactic(auto, unfolding(md_fields::specs::Fields::spelling))]
pub fn put_zeros(count: usize, into: &mut Vec<u8>)
    requires most { count ≤ 12288 }
    requires room { vec_len into.old + count ≤ vec_capacity into.old }
    ensures bytes { into.new.items ≡ into.old.items ++ replicate count 0 }
    ensures length { vec_len into.new ≡ vec_len into.old + count }
    ensures room { vec_capacity into.old ≤ vec_capacity into.new }
{
    put(&[Field::Block(&ZEROS[..count], true)], into);
}
