use md_pads::Recording;
use std::test::Fail;

// Worked out by hand from the description of the format.
const TWO_FRAMES: &[u8; 20] = b"MDREC001\0\0\0\x02\0\x80\0\x01\0\x10\0\xff";

#[test]
fn frames_are_a_recording(rt: HostRuntime) -> Result<(), Fail> {
    let alloc = rt.alloc();
    let recording = Recording::of(alloc, &[(0x80, 1), (0x10, 0xff)])?;
    assert!(rt; recording.write(alloc)?.as_slice() == TWO_FRAMES.as_slice());
    Ok(())
}
