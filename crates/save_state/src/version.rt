ghost use Rattle.std.specs.Prelude.{◌≡◌, IfErr, IfOk, IsTrue, ◌↔◌, ◌≤◌, ◌<◌, length, option_map};
ghost use Rattle.save_state.specs.Layout.{magic_part, part_of};
ghost use Rattle.save_state.specs.Versions as versions;
ghost use Rattle.save_state.specs.Versions.{HasVersion, IsUnversioned, from_first, from_second, newest_of, place_in_first};

use crate::layout::{LENGTH, MAGIC, TEXT};
use md_word::NoMemory;
use std::alloc::Global;

/// The forms of a saved state.
#[derive(Clone, Copy)]
pub enum Version {
    /// Of NTSC alone.
    First,
    /// With the region, and pads of eight buttons.
    Second,
    /// With the falls of TH that pads count; it is the one that is written.
    Third,
}

/// The magic of a state of the first version.
const FIRST_TEXT: [u8; 8] = *b"MDSTATE1";

/// How many bytes it has.
const FIRST_LENGTH: usize = 378_240;

/// The offsets of its 68000, of its VDP renderer, and of what follows the renderer.
const FIRST_MAIN: usize = 48;

const FIRST_RENDERER: usize = 139_831;

const FIRST_FM_PORT: usize = 354_881;

/// The offsets of the height of the display, of the end of the renderer but for the scanlines after the picture
/// of NTSC, and of what follows those.
const TALL: u64 = 139_832;

const FIRST_ROWS_END: u64 = 354_883;

const ROWS_END: u64 = 370_243;

/// The magic of a state of the second version, and how many bytes it has.
const SECOND_TEXT: [u8; 8] = *b"MDSTATE2";

const SECOND_LENGTH: usize = 393_602;

/// Its region, NTSC, and the height of its display, 224 lines.
const NTSC: [u8; 1] = [0];

const LOW: [u8; 1] = [0];

/// The scanlines that a picture for PAL has more.
const MORE_ROWS: [u8; 15_360] = [0; 15_360];

/// That neither pad counted a fall of TH.
const NO_FALLS: [u8; 18] = [0; 18];

/// The version of the bytes. It fails with the offset at which they are refused: their number where they are
/// too few for a magic, 0 where they begin with none, and else the lesser of their number and that of the
/// version.
pub fn version_of(bytes: &[u8]) -> Result<Version, u64>
    ensures version { IfOk result (λ version. HasVersion version bytes.now) }
    ensures none { IfErr result (λ place. IsUnversioned bytes.now place) }
{
    if bytes.len() < MAGIC.size {
        return Err(bytes.len() as u64);
    }
    if begins_with(bytes, &TEXT) {
        if bytes.len() != LENGTH {
            return Err(bytes.len().min(LENGTH) as u64);
        }
        return Ok(Version::Third);
    }
    if begins_with(bytes, &SECOND_TEXT) {
        if bytes.len() != SECOND_LENGTH {
            return Err(bytes.len().min(SECOND_LENGTH) as u64);
        }
        return Ok(Version::Second);
    }
    if begins_with(bytes, &FIRST_TEXT) {
        if bytes.len() != FIRST_LENGTH {
            return Err(bytes.len().min(FIRST_LENGTH) as u64);
        }
        return Ok(Version::First);
    }
    Err(0)
}

/// Whether the bytes begin with a magic.
fn begins_with(bytes: &[u8], mark: &[u8; 8]) -> bool
    requires { 8 ≤ length bytes.now }
    ensures { IsTrue result ↔ (part_of magic_part bytes.now ≡ mark.now) }
{
    MAGIC.of(bytes) == mark.as_slice()
}

/// The bytes of the form that is written, made of those of an older version; `None` where they have that form.
/// It fails only when memory runs out.
#[tactic(auto, unfolding(crate::specs::Versions::migrated))]
pub fn migrated(alloc: Global, version: Version, bytes: &[u8]) -> Result<Option<Vec<u8>>, NoMemory>
    requires { HasVersion version bytes.now }
    ensures { IfOk result (λ made. newest_of (option_map (λ v. v.items) made) bytes.now ≡ versions.migrated version bytes.now) }
{
    match version {
        Version::First => Ok(Some(from_first(alloc, bytes)?)),
        Version::Second => Ok(Some(from_second(alloc, bytes)?)),
        Version::Third => Ok(None),
    }
}

/// The bytes that were made of others, or these, where none were made.
pub fn newest_of<'a>(made: &'a Option<Vec<u8>>, bytes: &'a [u8]) -> &'a [u8]
    ensures { result.now ≡ newest_of (option_map (λ v. v.items) made.now) bytes.now }
{
    match made {
        Some(newest) => newest.as_slice(),
        None => bytes,
    }
}

/// The bytes of the form that is written, made of those of the first version. It fails only when memory runs
/// out.
fn from_first(alloc: Global, bytes: &[u8]) -> Result<Vec<u8>, NoMemory>
    requires { length bytes.now ≡ 378240 }
    ensures { IfOk result (λ newer. newer.items ≡ from_first bytes.now) }
{
    let mut newer = Vec::with_capacity(alloc, LENGTH)?;
    newer.extend_from_slice(&TEXT)?;
    newer.extend_from_slice(&bytes[MAGIC.size..FIRST_MAIN])?;
    newer.extend_from_slice(&NTSC)?;
    newer.extend_from_slice(&bytes[FIRST_MAIN..FIRST_RENDERER])?;
    newer.extend_from_slice(&LOW)?;
    newer.extend_from_slice(&bytes[FIRST_RENDERER..FIRST_FM_PORT])?;
    newer.extend_from_slice(&MORE_ROWS)?;
    newer.extend_from_slice(&bytes[FIRST_FM_PORT..FIRST_LENGTH])?;
    newer.extend_from_slice(&NO_FALLS)?;
    Ok(newer)
}

/// The same made of those of the second version. It fails only when memory runs out.
fn from_second(alloc: Global, bytes: &[u8]) -> Result<Vec<u8>, NoMemory>
    requires { length bytes.now ≡ 393602 }
    ensures { IfOk result (λ newer. newer.items ≡ from_second bytes.now) }
{
    let mut newer = Vec::with_capacity(alloc, LENGTH)?;
    newer.extend_from_slice(&TEXT)?;
    newer.extend_from_slice(&bytes[MAGIC.size..SECOND_LENGTH])?;
    newer.extend_from_slice(&NO_FALLS)?;
    Ok(newer)
}

/// Where an offset of the form that is written is in the bytes of a version of which it was made.
#[tactic(auto, unfolding(crate::specs::Versions::place_back))]
pub fn place_back(version: Version, place: u64) -> u64
    ensures { result ≡ versions.place_back version place }
{
    match version {
        Version::First => place_in_first(place),
        Version::Second => place.min(SECOND_LENGTH as u64),
        Version::Third => place,
    }
}

/// The same of the first version.
fn place_in_first(place: u64) -> u64
    ensures { result ≡ place_in_first place }
{
    if place <= FIRST_MAIN as u64 {
        place
    } else if place <= TALL {
        place - 1
    } else if place < FIRST_ROWS_END {
        place - 2
    } else if place < ROWS_END {
        FIRST_FM_PORT as u64
    } else {
        (place - 15_362).min(FIRST_LENGTH as u64)
    }
}
