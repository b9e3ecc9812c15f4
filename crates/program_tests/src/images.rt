//! Images of three bytes.
ghost use Rattle.std.specs.Prelude.{◌≡◌, ◌∷◌, OnOk, take};

use md_rollback::KeptImages;
use md_word::NoMemory;
use std::alloc::Global;
use std::test::Fail;

/// Keeps an image of these bytes after so many frames.
fn keep(alloc: Global, kept: &mut KeptImages, frames: usize, bytes: [u8; 3]) -> Result<(), NoMemory>
    requires { kept.old.size ≡ 3 }
    ensures { OnOk result (kept.new ≡ record kept.old { images = take kept.old.most (record { frames = frames; bytes = bytes } ∷ kept.old.images) }) }
{
    let mut image = Vec::with_capacity(alloc, 3)?;
    image.extend_from_slice(&bytes)?;
    kept.push(frames, &mut image);
    Ok(())
}

#[test]
fn the_newest_are_kept(rt: HostRuntime) -> Result<(), Fail> {
    let mut kept = KeptImages::make(rt.alloc(), 2, 3)?;
    keep(rt.alloc(), &mut kept, 0, [1, 2, 3])?;
    keep(rt.alloc(), &mut kept, 1, [1, 2, 4])?;
    keep(rt.alloc(), &mut kept, 5, [5, 2, 4])?;
    assert!(rt; kept.image(1) == [1, 2, 4].as_slice());
    Ok(())
}

#[test]
fn the_newest_are_replaced(rt: HostRuntime) -> Result<(), Fail> {
    let mut kept = KeptImages::make(rt.alloc(), 3, 3)?;
    keep(rt.alloc(), &mut kept, 3, [1, 2, 3])?;
    keep(rt.alloc(), &mut kept, 4, [1, 2, 4])?;
    kept.drop_newest(1);
    keep(rt.alloc(), &mut kept, 8, [7, 8, 9])?;
    assert!(rt; kept.image(1) == [1, 2, 3].as_slice());
    assert!(rt; kept.frames(1) == 3);
    Ok(())
}

/// How many of the images after 3, 7 and 8 frames are newer than so many frames.
static NEWER: [(usize, usize); 6] = [(9, 0), (8, 0), (7, 1), (6, 2), (3, 2), (2, 3)];

#[test]
fn newer_images(rt: HostRuntime) -> Result<(), Fail> {
    let mut kept = KeptImages::make(rt.alloc(), 4, 3)?;
    keep(rt.alloc(), &mut kept, 3, [1, 2, 3])?;
    keep(rt.alloc(), &mut kept, 7, [1, 2, 4])?;
    keep(rt.alloc(), &mut kept, 8, [7, 8, 9])?;
    for (frames, newer) in NEWER {
        assert!(rt; kept.newer_than(frames) == newer, "frames {frames}");
    }
    Ok(())
}
