ghost use Rattle.std.specs.Prelude.{◌≡◌, ℕ, ◌≤◌, ◌<◌, ◌+◌, ◌*◌, ◌/◌, ◌++◌, ◌⊎◌, List, IfErr, IfOk, length};
ghost use Rattle.md_word.specs.Clock.{batch as batch_length};
ghost use Rattle.md_files.specs.Wav.{wav_head};
ghost use Rattle.md_vgm.specs.Course as course;
ghost use Rattle.md_vgm.specs.Course.{Reaches, Ends, fm_before, psg_before, stamp, verdict_of};
ghost use Rattle.md_vgm.specs.Outcomes.{Failed, IsPlayed, Made};
ghost use Rattle.md_vgm.specs.Playing as meaning;
ghost use Rattle.md_vgm.specs.Playing.{pairs};

use crate::clocks::stamp_of;
use crate::fault::VgmFault;
use crate::opening::start_of;
use crate::player::Player;
use crate::scan::end_of;
use md_files::wav_head;
use md_word::clock::BATCH;
use std::alloc::Global;

/// The bytes of a batch's pairs.
const PAIRS: usize = 64;

/// The bytes of the header of a sound file.
const HEAD: usize = 44;

/// The batches that end below a cycle.
fn batches_below(end: u64) -> u64
    ensures { result ≡ meaning.batches_below end }
{
    end.saturating_sub(1) / BATCH
}

/// The sound of so many batches, all of which lie below the end of the sound.
fn sound(
    alloc: Global,
    file: &[u8],
    start: usize,
    pal: bool,
    batches: u64,
) -> Result<Vec<u8>, VgmFault>
    requires start { start ≡ course.start_of file.now }
    requires within { start ≤ length file.now }
    requires few { batches ≤ 2000000 }
    ensures sound { IfOk result (λ sound. (n : ℕ) × Reaches pal file.now n × (batch_length * batches ≤ stamp pal file.now n)
        × (sound.items ≡ wav_head (16 * batches) pal ++ pairs (psg_before pal file.now n) (fm_before pal file.now n) batches)) }
    ensures fine { (last : ℕ) → Reaches pal file.now last → verdict_of pal file.now last ≡ Ends
        → batch_length * batches < stamp pal file.now last + 1 → IfErr result (λ fault. fault ≡ VgmFault.NoMemory) }
{
    let mut sound = Vec::with_capacity(alloc, HEAD + PAIRS * batches as usize)?;
    wav_head(16 * batches as u32, pal, &mut sound);
    let mut player = Player::power_on(alloc, start)?;
    for batch in 0..batches {
        player.fill(file, pal, batch)?;
        player.batch(16 * batch, &mut sound);
    }
    Ok(sound)
}

/// Plays a VGM file of at most 67,108,864 bytes: the sound file of its writes to both chips, for the whole
/// batches below its end. `pal` selects the master clock: that of PAL, or else that of NTSC; the clocks that the
/// file names are not looked at.
///
/// Its commands wait, or write a byte to a chip. A file is refused at the first offset at which no such command
/// is whole (`Form`), a wait goes beyond ten minutes (`Long`), or a write is the 1,025th to a chip in a batch
/// (`Dense`); for its header at 0, 8 or 34h (`Form`). Memory is asked for only where it is not, and
/// `NoMemory` says that the host had none.
pub fn play(alloc: Global, file: &[u8], pal: bool) -> Result<Vec<u8>, VgmFault>
    requires { length file.now ≤ 67108864 }
    ensures played { IfOk result (λ sound. IsPlayed pal file.now (Made sound.items)) }
    // Memory can run out only where the file has a sound.
    ensures fault { IfErr result (λ fault. IsPlayed pal file.now (Failed fault)
        ⊎ ((fault ≡ VgmFault.NoMemory) × ((sound : List ℕ) × IsPlayed pal file.now (Made sound)))) }
{
    let start = match start_of(file) {
        Ok(start) => start,
        Err(place) => return Err(VgmFault::Form { place }),
    };
    let end = match end_of(file, start, pal) {
        Ok(end) => end,
        Err(fault) => return Err(fault),
    };
    sound(alloc, file, start, pal, batches_below(stamp_of(pal, end)))
}
