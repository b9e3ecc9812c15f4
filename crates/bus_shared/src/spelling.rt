ghost use Rattle.std.specs.Prelude.{◌≡◌, ◌≢◌, ◌⊎◌, ◌+◌, ◌≤◌, ◌++◌, ℕ, true, length, is_some, option_map, vec_len, vec_capacity, IfOk, IfSome, IsErrOf, Ok, Err, Some};
ghost use Rattle.md_word.specs.Coding.{flag_number};
ghost use Rattle.z80_parcel.specs.Parcels.{IsStore, store_of};
ghost use Rattle.psg_sound.specs.Port.{IsPort};
ghost use Rattle.bus_shared.specs.Board.{AreBytes, Board, IsFewFm};
ghost use Rattle.bus_shared.specs.Saved.{AreFalls, board_from, lines_of};
ghost use Rattle.std.specs.Arc.{arc_value};
ghost use Rattle.md_word.specs.Clock.{cycle_limit};
ghost use Rattle.bus_shared.specs.Spelling.{InvalidAt, IsReady, Spells, StoreInvalidAt, board_bytes, board_size, settled_board, store_bytes, store_size};

use crate::saved_lines::{LINES_SIZE, SavedLines};
use crate::saved_ports::{Ports, following, ports_in};
use crate::shared::Shared;
use fm_port::{FmPort, PORT_SIZE as FM_SIZE};
use md_fields::{put, u16_at};
use md_pads::{PadPort, Recording};
use md_word::{NoMemory, Parcel, Unspell};
use psg_sound::{PORT_SIZE as PSG_SIZE, PsgPort};
use std::alloc::Global;
use std::sync::Arc;
use vdp_dma::{is_read_again, spell};
use vdp_ports::{VDP_SIZE, VdpState};
use z80_parcel::{BANKS, RAM_SIZE, parcel_of, put_store};

/// Where the bank register is, after the RAM.
const BANK: usize = RAM_SIZE;

/// How many bytes of a saved state keep the Z80's RAM and its bank register.
pub const STORE_SIZE: usize = BANK + 2;

/// How many bytes of a saved state keep a board without the Z80's RAM.
const BOARD_SIZE: usize = VDP_SIZE + FM_SIZE + PSG_SIZE + LINES_SIZE;

/// How many bytes keep one with it.
pub const FULL_SIZE: usize = STORE_SIZE + BOARD_SIZE;

impl Shared {
    /// Whether the board has the Z80's RAM.
    pub fn has_store(&self) -> bool
        ensures { result ≡ is_some self.now.store }
    {
        self.parcel.is_some()
    }

    /// Appends the bytes of a saved state at a master cycle that keep this board, as it is once fill, copy
    /// and timers are settled to the cycle. They are 88,407, and 8,194 more before them where the board has
    /// the Z80's RAM. There is room for them. They are read again where the rules of the parts hold. The
    /// board does not change.
    pub fn spell(&self, at: u64, into: &mut Vec<u8>)
        requires cycle { at ≤ cycle_limit }
        requires room { vec_len into.old + board_size (is_some self.now.store) ≤ vec_capacity into.old }
        ensures bytes { into.new.items ≡ into.old.items ++ board_bytes (settled_board at self.now) }
        ensures length { vec_len into.new ≡ vec_len into.old + board_size (is_some self.now.store) }
        ensures room { vec_capacity into.old ≤ vec_capacity into.new }
        ensures kept { IsReady at self.now → Spells at self.now.vdp.pal (board_bytes (settled_board at self.now)) (settled_board at self.now) }
    {
        put_store(&self.parcel, into);
        spell(&self.vdp, at, into);
        self.fm.spell(at, into);
        self.psg.spell(at, into);
        put(&self.saved_lines().fields(at), into);
    }

    /// States that the bytes of this board, settled to a cycle of at most 2^50, are read again where the rules
    /// of the parts hold.
    pub fn is_read_again(&self, at: u64)
        requires { at ≤ cycle_limit }
        ensures { IsReady at self.now → Spells at self.now.vdp.pal (board_bytes (settled_board at self.now)) (settled_board at self.now) }
    {
        is_read_again(&self.vdp);
        self.fm.is_read_again(at);
        self.psg.is_read_again();
        let _ = &self.parcel;
    }

    /// The lines and the pads, as they are kept.
    fn saved_lines(&self) -> SavedLines
        ensures { result ≡ lines_of self.now }
    {
        SavedLines {
            bus_request: flag_byte(self.request),
            reset: flag_byte(self.reset),
            resets: self.resets,
            value1: self.port1.value(),
            control1: self.port1.control(),
            value2: self.port2.value(),
            control2: self.port2.control(),
            pads1: self.pads.0,
            pads2: self.pads.1,
            count1: self.port1.count(),
            fall1: self.port1.fall(),
            count2: self.port2.count(),
            fall2: self.port2.fall(),
        }
    }

    /// The board that the bytes of a saved state at a master cycle, of at most 2^50, and of a region keep,
    /// over a recording. Memories are copied.
    ///
    /// `Rule` has the offset of the first invalid byte: where there are neither 88,407 nor 96,601 bytes, the
    /// lesser of their number and 96,601; else where the first field begins whose rule fails. The only other
    /// error is out of memory.
    pub fn unspell(
        alloc: Global,
        bytes: &[u8],
        at: u64,
        recording: Arc<Recording>,
        pal: bool,
    ) -> Result<Shared, Unspell>
        requires { at ≤ cycle_limit }
        ensures found { IfOk result (λ shared. Spells at pal bytes.now shared × (shared.recording ≡ arc_value recording)) }
        ensures only { (board : Board) → Spells at pal bytes.now board → board.recording ≡ arc_value recording
            → result ≢ Err Unspell.NoMemory → result ≡ Ok board }
        ensures rule { (place : ℕ) → IsErrOf result (Unspell.Rule place) → InvalidAt at pal bytes.now place }
        ensures refused { (place : ℕ) → InvalidAt at pal bytes.now place → result ≢ Err Unspell.NoMemory
            → IsErrOf result (Unspell.Rule place) }
    {
        match read(alloc, bytes, at, recording, pal) {
            Ok(shared) => Ok(shared),
            Err(fault) => Err(fault),
        }
    }
}

/// A flag as it is kept.
fn flag_byte(flag: bool) -> u8
    ensures { result ≡ flag_number flag }
{
    u8::from(flag)
}

/// The board that the bytes keep, with the errors of [`Shared::unspell`].
fn read(
    alloc: Global,
    bytes: &[u8],
    at: u64,
    recording: Arc<Recording>,
    pal: bool,
) -> Result<Shared, Unspell>
    requires { at ≤ cycle_limit }
    ensures found { IfOk result (λ shared. Spells at pal bytes.now shared × (shared.recording ≡ arc_value recording)) }
    ensures rule { (place : ℕ) → IsErrOf result (Unspell.Rule place) → InvalidAt at pal bytes.now place }
{
    if bytes.len() != BOARD_SIZE && bytes.len() != FULL_SIZE {
        return Err(Unspell::Rule {
            place: bytes.len().min(FULL_SIZE) as u64,
        });
    }
    let (store, rest) = bytes.split_at(bytes.len() - BOARD_SIZE);
    let parcel = match parcel_in(alloc, store) {
        Ok(parcel) => parcel,
        Err(fault) => return Err(fault),
    };
    let (video, rest) = rest.split_at(VDP_SIZE);
    let vdp = match VdpState::unspell(alloc, video, at, pal) {
        Ok(vdp) => vdp,
        Err(fault) => return Err(following(store.len() as u64, fault)),
    };
    let ports = match ports_in(alloc, rest, at) {
        Ok(ports) => ports,
        Err(fault) => return Err(following((store.len() + VDP_SIZE) as u64, fault)),
    };
    let Ports { fm, psg, lines } = ports;
    Ok(board_of(alloc, recording, parcel, vdp, fm, psg, lines)?)
}

/// The board of these parts. The only error is out of memory.
fn board_of(
    alloc: Global,
    recording: Arc<Recording>,
    parcel: Option<Parcel>,
    vdp: VdpState,
    fm: Box<FmPort>,
    psg: Box<PsgPort>,
    lines: SavedLines,
) -> Result<Shared, NoMemory>
    requires store { IfSome (option_map store_of parcel) IsStore }
    requires falls { AreFalls lines }
    requires fm { IsFewFm fm.value.writes }
    requires psg { IsPort psg.value }
    ensures { IfOk result (λ shared. shared ≡ board_from (arc_value recording) (option_map store_of parcel) vdp fm.value psg.value lines) }
{
    are_bytes(&vdp.registers);
    Ok(Shared {
        recording,
        pads: (lines.pads1, lines.pads2),
        port1: PadPort::with(lines.value1, lines.control1, lines.count1, lines.fall1),
        port2: PadPort::with(lines.value2, lines.control2, lines.count2, lines.fall2),
        psg,
        fm,
        request: lines.bus_request == 1,
        reset: lines.reset == 1,
        resets: lines.resets,
        parcel,
        vdp: Box::new(alloc, vdp)?,
        line_buffer: None,
        fits: false,
    })
}

/// States that bytes are below 256.
fn are_bytes(bytes: &[u8])
    ensures { AreBytes bytes.now }
{
    let _bytes = bytes;
}

/// RAM and bank register, `None` where there are no bytes of them. The errors are those of `held_in`.
fn parcel_in(alloc: Global, store: &[u8]) -> Result<Option<Parcel>, Unspell>
    requires { (length store.now ≡ 0) ⊎ (length store.now ≡ store_size true) }
    ensures found { IfOk result (λ parcel. (store.now ≡ store_bytes (option_map store_of parcel)) × IfSome (option_map store_of parcel) IsStore) }
    ensures right { IfOk result (λ parcel. (place : ℕ) → StoreInvalidAt store.now place → ⊥) }
    ensures rule { (place : ℕ) → IsErrOf result (Unspell.Rule place) → StoreInvalidAt store.now place }
{
    if store.is_empty() {
        return Ok(None);
    }
    match held_in(alloc, store) {
        Ok(parcel) => Ok(Some(parcel)),
        Err(fault) => Err(fault),
    }
}

/// RAM and bank register that 8,194 bytes keep. `Rule`: the bank register has more than 9 bits. The only
/// other error is out of memory.
fn held_in(alloc: Global, store: &[u8]) -> Result<Parcel, Unspell>
    requires { length store.now ≡ store_size true }
    ensures found { IfOk result (λ parcel. (store.now ≡ store_bytes (Some (store_of parcel))) × IsStore (store_of parcel)) }
    ensures right { IfOk result (λ parcel. (place : ℕ) → StoreInvalidAt store.now place → ⊥) }
    ensures rule { (place : ℕ) → IsErrOf result (Unspell.Rule place) → StoreInvalidAt store.now place }
{
    let bank = u16_at(store, BANK);
    if bank >= BANKS {
        return Err(Unspell::Rule { place: BANK as u64 });
    }
    let (ram, _) = store.split_at(BANK);
    Ok(parcel_of(alloc, ram, bank)?)
}
