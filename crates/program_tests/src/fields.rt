use md_fields::{Field, first_invalid, put, u8_at, u16_at, u32_at, u64_at, words_at};
use std::test::Fail;

// Each number with its highest byte first, written out by hand.
const SPELLED: &[u8; 22] =
    b"\x12\x34\x56\x78\x9a\xbc\xde\x01\x23\x45\x67\x89\xab\xcd\xef\x11\x22\x33\x44RAM";

#[test]
#[tactic(auto, unfolding(md_fields::specs::Fields::spelling))]
fn fields_are_spelled(rt: HostRuntime) -> Result<(), Fail> {
    let fields = [
        Field::Byte(0x12, true),
        Field::Word(0x3456, true),
        Field::Long(0x789a_bcde, true),
        Field::Quad(0x0123_4567_89ab_cdef, true),
        Field::Words(&[0x1122, 0x3344], true),
        Field::Block(b"RAM", true),
    ];
    let mut bytes = Vec::with_capacity(rt.alloc(), 22)?;
    put(&fields, &mut bytes);
    assert!(rt; bytes.as_slice() == SPELLED.as_slice());
    Ok(())
}

#[test]
fn numbers_are_read(rt: HostRuntime) {
    assert!(rt; u8_at(SPELLED, 0) == 0x12 && u16_at(SPELLED, 1) == 0x3456);
    assert!(rt; u32_at(SPELLED, 3) == 0x789a_bcde && u64_at(SPELLED, 7) == 0x0123_4567_89ab_cdef);
    let words: [u16; 2] = words_at(SPELLED, 15);
    assert!(rt; words == [0x1122, 0x3344]);
}

/// The place of the first wrong of six fields, of which so many are right.
#[tactic(auto, unfolding(md_fields::specs::Fields::sizes))]
fn place_after(right: u8) -> Option<usize> {
    first_invalid(&[
        Field::Byte(0x12, right > 0),
        Field::Word(0x3456, right > 1),
        Field::Long(0x789a_bcde, right > 2),
        Field::Quad(0x0123_4567_89ab_cdef, right > 3),
        Field::Words(&[0x1122, 0x3344], right > 4),
        Field::Block(b"RAM", false),
    ])
}

// From which field on the rules fail, and the place of that field.
#[test]
#[tactic(auto, unfolding(md_fields::specs::Fields::sizes))]
fn the_first_invalid_field_has_its_place(rt: HostRuntime) {
    for (right, want) in [(0, 0), (1, 1), (2, 3), (3, 7), (4, 15), (5, 19)] {
        assert!(rt; place_after(right) == Some(want), "{right}");
    }
    assert!(rt; first_invalid(&[]).is_none());
}
