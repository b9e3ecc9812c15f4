ghost use Rattle.std.specs.Prelude.{◌≡◌, ◌%◌, ◌≤◌, IfOk};
ghost use Rattle.md_word.specs.Clock.{cycle_limit};
ghost use Rattle.vdp_dma.specs.Settling.{settled};
ghost use Rattle.vdp_ports.specs.Control.{acknowledged, controlled, started_by, status_read};
ghost use Rattle.vdp_ports.specs.Data.{accessed, read, transferred, written};
ghost use Rattle.vdp_ports.specs.Vdp.{at_power_on};
ghost use Rattle.bus_shared.specs.Board.{AreBytes};
ghost use Rattle.bus_shared.specs.Video as video;

use crate::port::VideoPort;
use md_word::region::rows;
use md_word::{NoMemory, Transfer};
use std::alloc::Global;
use vdp_dma::{busy, settle, transfer_word};
use vdp_planes::register::MODE_4;
use vdp_planes::{LineView, SpriteNote, fill_view};
use vdp_ports::VdpState;
use vdp_ports::register::is_shown;
use vdp_time::{blank, hv, line_of, start_line};

/// The word that is read where no port answers.
pub(crate) const OPEN_WORD: u16 = 0xffff;

/// The master cycles of a transferred word while the display is drawn.
const DRAWN_COST: u16 = 380;

/// The master cycles of a transferred word while nothing is drawn.
const UNDRAWN_COST: u16 = 34;

/// The VDP at power-on, of a region. The only error is out of memory.
pub(crate) fn power_on(alloc: Global, pal: bool) -> Result<Box<VdpState>, NoMemory>
    ensures value { IfOk result (λ vdp. vdp.value ≡ at_power_on pal) }
    ensures bytes { IfOk result (λ vdp. AreBytes vdp.value.registers) }
{
    Ok(Box::new(alloc, VdpState::power_on(alloc, pal)?)?)
}

/// Whether the picture has 320 dots.
#[tactic(auto, unfolding(crate::specs::Video::is_wide))]
fn is_wide(vdp: &VdpState) -> bool
    ensures { result ≡ video.is_wide vdp.now }
{
    vdp.registers[MODE_4] % 2 == 1
}

/// The master cycles to the next word of a transfer, as an access at a master cycle answers them.
#[tactic(auto, unfolding(crate::specs::Video::word_cost))]
fn word_cost(vdp: &VdpState, cycle: u64) -> u16
    ensures { result ≡ video.word_cost cycle vdp.now }
{
    let (_, vb) = blank(cycle, is_shown(&vdp.registers), vdp.pal, vdp.tall);
    if vb { UNDRAWN_COST } else { DRAWN_COST }
}

/// Reads the data port at a cycle, to which fill and copy are settled first.
fn read_data(vdp: &mut VdpState, cycle: u64) -> u16
    requires { cycle ≤ cycle_limit }
    ensures value { result ≡ read (settled cycle vdp.old) % 0x1_0000 }
    ensures after { vdp.new ≡ accessed (settled cycle vdp.old) }
{
    settle(vdp, cycle);
    vdp.data_read()
}

/// Reads the status at a cycle, to which fill and copy are settled first.
fn read_status(vdp: &mut VdpState, cycle: u64) -> u16
    requires { cycle ≤ cycle_limit }
    ensures value { result ≡ video.status_at cycle (settled cycle vdp.old) }
    ensures after { vdp.new ≡ status_read (settled cycle vdp.old) }
{
    settle(vdp, cycle);
    let is_busy = busy(vdp, cycle);
    let (hb, vb) = blank(cycle, is_shown(&vdp.registers), vdp.pal, vdp.tall);
    vdp.control_read(is_busy, hb, vb)
}

/// Reads a port at a cycle.
#[tactic(auto, using(crate::proofs::Ports::data_read_bytes, crate::proofs::Ports::status_read_bytes), unfolding(crate::specs::Video::port_word, crate::specs::Video::port_read))]
pub(crate) fn read_port(port: VideoPort, vdp: &mut VdpState, cycle: u64) -> u16
    requires { cycle ≤ cycle_limit }
    ensures value { result ≡ video.port_word port cycle vdp.old }
    ensures after { vdp.new ≡ video.port_read port cycle vdp.old }
    ensures bytes { AreBytes vdp.old.registers → AreBytes vdp.new.registers }
{
    match port {
        VideoPort::Data => read_data(vdp, cycle),
        VideoPort::Control => read_status(vdp, cycle),
        VideoPort::Counter => hv(cycle, is_wide(vdp), vdp.pal, vdp.tall),
        VideoPort::Sound | VideoPort::Unused => OPEN_WORD,
    }
}

/// Writes a word to the data port at a cycle, to which fill and copy are settled first.
fn write_data(vdp: &mut VdpState, cycle: u64, word: u16)
    requires { cycle ≤ cycle_limit }
    ensures { vdp.new ≡ written cycle word (settled cycle vdp.old) }
{
    settle(vdp, cycle);
    vdp.data_write(cycle, word);
}

/// Writes a word to the control port at a cycle, to which fill and copy are settled first: the
/// transfer that it starts, `None` where it starts none.
fn write_control(vdp: &mut VdpState, cycle: u64, word: u16) -> Option<Transfer>
    requires { cycle ≤ cycle_limit }
    ensures after { vdp.new ≡ controlled cycle word (settled cycle vdp.old) }
    ensures transfer { result ≡ video.with_cost (video.word_cost cycle vdp.old) (started_by word (settled cycle vdp.old)) }
{
    let cost = word_cost(vdp, cycle);
    settle(vdp, cycle);
    match vdp.control_write(cycle, word) {
        Some((source, words)) => Some(Transfer {
            source,
            words,
            cost,
        }),
        None => None,
    }
}

/// Writes a word to a port at a cycle: the transfer that it starts, `None` where it starts none.
#[tactic(auto, using(crate::proofs::Ports::data_written_bytes, crate::proofs::Ports::control_written_bytes), unfolding(crate::specs::Video::port_written, crate::specs::Video::port_transfer))]
pub(crate) fn write_port(
    port: VideoPort,
    vdp: &mut VdpState,
    cycle: u64,
    word: u16,
) -> Option<Transfer>
    requires { cycle ≤ cycle_limit }
    ensures after { vdp.new ≡ video.port_written port cycle word vdp.old }
    ensures transfer { result ≡ video.port_transfer port cycle word vdp.old }
    ensures bytes { AreBytes vdp.old.registers → AreBytes vdp.new.registers }
{
    match port {
        VideoPort::Data => {
            write_data(vdp, cycle, word);
            None
        }
        VideoPort::Control => write_control(vdp, cycle, word),
        VideoPort::Counter | VideoPort::Sound | VideoPort::Unused => None,
    }
}

/// Takes a word of a transfer at a cycle, to which fill and copy are settled first: the master cycles
/// to the next word.
#[tactic(auto, using(crate::proofs::Ports::taken_bytes))]
pub(crate) fn take_word(vdp: &mut VdpState, cycle: u64, word: u16) -> u16
    requires { cycle ≤ cycle_limit }
    ensures cost { result ≡ video.word_cost cycle vdp.old }
    ensures after { vdp.new ≡ transferred word (settled cycle vdp.old) }
    ensures bytes { AreBytes vdp.old.registers → AreBytes vdp.new.registers }
{
    let cost = word_cost(vdp, cycle);
    settle(vdp, cycle);
    transfer_word(vdp, word);
    cost
}

/// The 68000 takes the interrupt of a level.
#[tactic(auto, using(crate::proofs::Ports::acknowledged_bytes))]
pub(crate) fn acknowledge(vdp: &mut VdpState, level: u8)
    ensures after { vdp.new ≡ acknowledged level vdp.old }
    ensures bytes { AreBytes vdp.old.registers → AreBytes vdp.new.registers }
{
    vdp.acknowledge(level);
}

/// Joins what the sprites of a line have set to the status.
fn join(vdp: &mut VdpState, note: SpriteNote)
    ensures { vdp.new ≡ video.joined note vdp.old }
{
    vdp.overflow |= note.overflow;
    vdp.collision |= note.collision;
}

/// The VDP's part of the start of a line, to which fill and copy are settled first.
#[tactic(auto, using(crate::proofs::Ports::line_begun_bytes), unfolding(crate::specs::Video::line_begun))]
pub(crate) fn begin_line(vdp: &mut VdpState, cycle: u64, note: SpriteNote)
    requires { cycle ≤ cycle_limit }
    ensures after { vdp.new ≡ video.line_begun cycle note vdp.old }
    ensures bytes { AreBytes vdp.old.registers → AreBytes vdp.new.registers }
{
    settle(vdp, cycle);
    join(vdp, note);
    start_line(vdp, cycle);
}

/// Fills the view of a line of the picture.
#[tactic(auto, unfolding(crate::specs::Video::line_view))]
pub(crate) fn show(vdp: &VdpState, cycle: u64, view: &mut LineView)
    ensures { view.new ≡ video.line_view cycle vdp.now view.old }
{
    if line_of(cycle, view.pal) < rows(view.pal) {
        fill_view(view, vdp);
    }
}

/// The half of a word that a byte read gives.
pub(crate) fn half_at(address: u32, word: u16) -> u8
    ensures { result ≡ video.half_at address word }
{
    if address % 2 == 0 {
        (word / 0x100) as u8
    } else {
        (word % 0x100) as u8
    }
}
