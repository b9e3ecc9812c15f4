//! The ports of the sound chips, and the lines and the pads, read from a saved state.
ghost use Rattle.std.specs.Prelude.{◌≡◌, ◌^◌, ◌≤◌, ℕ, length, drop, take, IfOk, IsErrOf};
ghost use Rattle.md_word.specs.Clock.{cycle_limit};
ghost use Rattle.fm_port.specs.PortSpelling as fm_spelling;
ghost use Rattle.md_fields.specs.Items.{IsRight, Keeps};
ghost use Rattle.psg_sound.specs.PortSpelling as psg_spelling;
ghost use Rattle.psg_sound.specs.Port.{IsPort};
ghost use Rattle.bus_shared.specs.Board.{IsFewFm};
ghost use Rattle.bus_shared.specs.Saved.{lines_fields};
ghost use Rattle.bus_shared.specs.Spelling.{PortsInvalidAt, following as place_after, ports_size};
ghost use Rattle.fm_port.specs.PortSpelling.{port_size as fm_size};
ghost use Rattle.psg_sound.specs.PortSpelling.{port_size as psg_size};

use crate::saved_lines::SavedLines;
use fm_port::{FmPort, PORT_SIZE as FM_SIZE};
use md_word::Unspell;
use psg_sound::{PORT_SIZE as PSG_SIZE, PsgPort};
use std::alloc::Global;

/// The ports of the sound chips, and the lines and the pads.
#[derive(Drop)]
pub(crate) struct Ports {
    pub(crate) fm: Box<FmPort>,
    pub(crate) psg: Box<PsgPort>,
    pub(crate) lines: SavedLines,
}

/// An error whose offset is counted from a start, counted from the front.
pub(crate) fn following(start: u64, fault: Unspell) -> Unspell
    requires start { start ≤ 2 ^ 32 }
    requires near { (place : ℕ) → fault ≡ Unspell.Rule place → place ≤ 2 ^ 32 }
    ensures { result ≡ place_after start fault }
{
    match fault {
        Unspell::Rule { place } => Unspell::Rule {
            place: start + place,
        },
        Unspell::NoMemory => Unspell::NoMemory,
    }
}

/// The FM chip's port that bytes keep, made in its place. `Rule` has the offset of the first invalid field;
/// the only other error is out of memory.
fn fm_in(alloc: Global, bytes: &[u8], at: u64) -> Result<Box<FmPort>, Unspell>
    requires { at ≤ cycle_limit }
    ensures found { IfOk result (λ port. fm_spelling.SpellsPort at bytes.now port.value) }
    ensures few { IfOk result (λ port. IsFewFm port.value.writes) }
    ensures right { IfOk result (λ port. (place : ℕ) → fm_spelling.PortInvalidAt at bytes.now place → ⊥) }
    ensures rule { (place : ℕ) → IsErrOf result (Unspell.Rule place) → fm_spelling.PortInvalidAt at bytes.now place }
{
    match Box::new(alloc, FmPort::power_on()) {
        Ok(port) => restored_fm(port, bytes, at),
        Err(_) => Err(Unspell::NoMemory),
    }
}

/// A port that is made the one that bytes keep, with the errors of `fm_in`.
fn restored_fm(port: Box<FmPort>, bytes: &[u8], at: u64) -> Result<Box<FmPort>, Unspell>
    requires { at ≤ cycle_limit }
    ensures found { IfOk result (λ port. fm_spelling.SpellsPort at bytes.now port.value) }
    ensures few { IfOk result (λ port. IsFewFm port.value.writes) }
    ensures right { IfOk result (λ port. (place : ℕ) → fm_spelling.PortInvalidAt at bytes.now place → ⊥) }
    ensures rule { (place : ℕ) → IsErrOf result (Unspell.Rule place) → fm_spelling.PortInvalidAt at bytes.now place }
{
    let mut port = port;
    match port.restore(bytes, at) {
        Ok(()) => Ok(port),
        Err(fault) => Err(fault),
    }
}

/// The PSG's port that bytes keep, made in its place. `Rule` has the offset of the first invalid field; the
/// only other error is out of memory.
fn psg_in(alloc: Global, bytes: &[u8], at: u64) -> Result<Box<PsgPort>, Unspell>
    ensures found { IfOk result (λ port. psg_spelling.SpellsPort at bytes.now port.value) }
    ensures port { IfOk result (λ port. IsPort port.value) }
    ensures right { IfOk result (λ port. (place : ℕ) → psg_spelling.PortInvalidAt at bytes.now place → ⊥) }
    ensures rule { (place : ℕ) → IsErrOf result (Unspell.Rule place) → psg_spelling.PortInvalidAt at bytes.now place }
{
    match Box::new(alloc, PsgPort::power_on()) {
        Ok(port) => restored(port, bytes, at),
        Err(_) => Err(Unspell::NoMemory),
    }
}

/// A port that is made the one that bytes keep, with the errors of `psg_in`.
fn restored(port: Box<PsgPort>, bytes: &[u8], at: u64) -> Result<Box<PsgPort>, Unspell>
    ensures found { IfOk result (λ port. psg_spelling.SpellsPort at bytes.now port.value) }
    ensures port { IfOk result (λ port. IsPort port.value) }
    ensures right { IfOk result (λ port. (place : ℕ) → psg_spelling.PortInvalidAt at bytes.now place → ⊥) }
    ensures rule { (place : ℕ) → IsErrOf result (Unspell.Rule place) → psg_spelling.PortInvalidAt at bytes.now place }
{
    let mut port = port;
    match port.restore(bytes, at) {
        Ok(()) => Ok(port),
        Err(fault) => Err(fault),
    }
}

/// The ports, and the lines and the pads, that the bytes after the VDP keep. `Rule` has the offset of the
/// first invalid field; the only other error is out of memory.
pub(crate) fn ports_in(alloc: Global, bytes: &[u8], at: u64) -> Result<Ports, Unspell>
    requires cycle { at ≤ cycle_limit }
    requires length { length bytes.now ≡ ports_size }
    ensures fm { IfOk result (λ ports. fm_spelling.SpellsPort at (take fm_size bytes.now) ports.fm.value) }
    ensures psg { IfOk result (λ ports. psg_spelling.SpellsPort at (take psg_size (drop fm_size bytes.now)) ports.psg.value) }
    ensures few { IfOk result (λ ports. IsFewFm ports.fm.value.writes) }
    ensures port { IfOk result (λ ports. IsPort ports.psg.value) }
    ensures lines { IfOk result (λ ports. Keeps (lines_fields at) (drop psg_size (drop fm_size bytes.now)) ports.lines × IsRight (lines_fields at) ports.lines) }
    ensures rule { (place : ℕ) → IsErrOf result (Unspell.Rule place)
        → PortsInvalidAt at 0 (take fm_size bytes.now) (take psg_size (drop fm_size bytes.now)) (drop psg_size (drop fm_size bytes.now)) place }
{
    let (fm, rest) = bytes.split_at(FM_SIZE);
    let fm = match fm_in(alloc, fm, at) {
        Ok(fm) => fm,
        Err(fault) => return Err(fault),
    };
    let (psg, rest) = rest.split_at(PSG_SIZE);
    let psg = match psg_in(alloc, psg, at) {
        Ok(psg) => psg,
        Err(fault) => return Err(following(FM_SIZE as u64, fault)),
    };
    match SavedLines::checked(rest, at) {
        Ok(lines) => Ok(Ports { fm, psg, lines }),
        Err(place) => Err(Unspell::Rule {
            place: (FM_SIZE + PSG_SIZE + place) as u64,
        }),
    }
}
