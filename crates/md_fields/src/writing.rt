ghost use Rattle.std.specs.Prelude.{◌≡◌, ◌+◌, ◌*◌, ◌≤◌, ◌++◌, length, map, vec_len, vec_capacity};
ghost use Rattle.std.specs.Int.{w16, to_be_bytes};
ghost use Rattle.std.specs.List.{flat_map};
ghost use Rattle.md_fields.specs.Fields.{seen, bytes_of, spelling};

use crate::field::Field;

fn append(bytes: &[u8], into: &mut Vec<u8>)
    requires { vec_len into.old + length bytes.now ≤ vec_capacity into.old }
    ensures bytes { into.new.items ≡ into.old.items ++ bytes.now }
    ensures length { vec_len into.new ≡ vec_len into.old + length bytes.now }
    ensures room { vec_capacity into.old ≤ vec_capacity into.new }
{
    let _room_is_there = into.extend_from_slice(bytes);
}

fn append_words(numbers: &[u16], into: &mut Vec<u8>)
    requires { vec_len into.old + 2 * length numbers.now ≤ vec_capacity into.old }
    ensures bytes { into.new.items ≡ into.old.items ++ flat_map (to_be_bytes w16) numbers.now }
    ensures length { vec_len into.new ≡ vec_len into.old + 2 * length numbers.now }
    ensures room { vec_capacity into.old ≤ vec_capacity into.new }
{
    for number in numbers {
        append(&number.to_be_bytes(), into);
    }
}

#[tactic(auto, using(crate::proofs::Standing::words_size))]
fn put_one(field: &Field<'_>, into: &mut Vec<u8>)
    requires { vec_len into.old + length (bytes_of (seen field.now)) ≤ vec_capacity into.old }
    ensures bytes { into.new.items ≡ into.old.items ++ bytes_of (seen field.now) }
    ensures length { vec_len into.new ≡ vec_len into.old + length (bytes_of (seen field.now)) }
    ensures room { vec_capacity into.old ≤ vec_capacity into.new }
{
    match field {
        Field::Byte(number, _) => append(&[*number], into),
        Field::Word(number, _) => append(&number.to_be_bytes(), into),
        Field::Long(number, _) => append(&number.to_be_bytes(), into),
        Field::Quad(number, _) => append(&number.to_be_bytes(), into),
        Field::Words(numbers, _) => append_words(numbers, into),
        Field::Block(bytes, _) => append(bytes, into),
    }
}

/// Appends the bytes of the fields, one after another. The list has the room already, so nothing is
/// asked for and nothing can fail.
#[tactic(auto, unfolding(crate::specs::Fields::spelling))]
pub fn put(fields: &[Field<'_>], into: &mut Vec<u8>)
    requires { vec_len into.old + length (spelling (map seen fields.now)) ≤ vec_capacity into.old }
    ensures bytes { into.new.items ≡ into.old.items ++ spelling (map seen fields.now) }
    ensures length { vec_len into.new ≡ vec_len into.old + length (spelling (map seen fields.now)) }
    ensures room { vec_capacity into.old ≤ vec_capacity into.new }
{
    let mut rest = fields;
    while let [field, after @ ..] = rest {
        put_one(field, into);
        rest = after;
    }
}
