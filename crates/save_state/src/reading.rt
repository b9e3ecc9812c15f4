ghost use Rattle.std.specs.Prelude.{◌≡◌, ◌≢◌, ◌↔◌, ◌≤◌, true, ℕ, List, [], length, IfOk, IsTrue, IsErrOf, Ok, Err};
ghost use Rattle.std.specs.Arc.{arc_value};
ghost use Rattle.sha2.specs.Sha256.{sha256};
ghost use Rattle.md_chips.specs.Media.{no_media};
ghost use Rattle.md_chips.specs.Starts.{Start, IsStart};
ghost use Rattle.save_state.specs.Faults.{FailsAt, HasForm, IsMachineOf};
ghost use Rattle.save_state.specs.OldPads.{FailsUnder, HasPads, IsMachineUnder, has_buttons};
ghost use Rattle.save_state.specs.Refusals.{FieldFailsBack, refusal_of};
ghost use Rattle.save_state.specs.Versions.{IsOtherCart, IsState, IsInvalidAt};
ghost use Rattle.save_state.specs.Items.{at_of, region_of, IsMain, MainFails, IsSub, SubFails, IsShared, SharedFails, IsPicture, RendererStateFails, IsFm, FmFails, IsPsg, PsgFails};
ghost use Rattle.m68k_chip.specs.States.{next_of};
ghost use Rattle.z80_chip.specs.States.{next_of as sub_next_of};
ghost use Rattle.save_state.specs.Joining.{Either, KeepsBoth, Reads};
ghost use Rattle.save_state.specs.Pieces.{KeepsPieces, Fails, built};
ghost use Rattle.save_state.specs.Layout.{digest_part, part_of, state_size};
ghost use Rattle.md_word.specs.Clock.{last_cycle};
ghost use Rattle.save_state.specs.States.{IsNewest};

use crate::fault::StateFault;
use crate::items::{read_fm, read_main, read_psg, read_renderer_state, read_shared, read_sub};
use crate::joining::{both, with_rule};
use crate::layout::{AT, DIGEST, PADS1, PADS2, REGION};
use crate::version::{Version, migrated, newest_of, place_back, version_of};
use bus_shared::Shared;
use fm_chip::FmSynth;
use m68k_chip::Chip68;
use md_fields::{u8_at, u16_at, u64_at};
use md_machine::Machine;
use md_pads::Recording;
use md_word::clock::LAST_CYCLE;
use md_word::{NoMemory, Unspell};
use psg_sound::PsgSynth;
use rom_header::Cart;
use sha2::{Digest, Sha256};
use std::alloc::Global;
use std::sync::Arc;
use vdp_chip::ChipVdp;
use z80_chip::Chip80;

/// The machine that the bytes of a saved state of this cartridge keep, with a recording of the pads. The state
/// may be of any version. It fails with the offset of the first invalid byte, with both digests where the state
/// is another cartridge's, or when memory runs out.
pub fn read(
    alloc: Global,
    bytes: &[u8],
    cart: Arc<Cart>,
    recording: Arc<Recording>,
) -> Result<Machine, StateFault>
    ensures found { IfOk result (λ m. IsState (arc_value cart) bytes.now (record { at = m.at; console = m.console }) × (m.console.shared.recording ≡ arc_value recording)) }
    ensures start { IfOk result (λ m. IsStart (record { at = m.at; console = m.console })) }
    ensures empty { IfOk result (λ m. (m.entries ≡ []) × (m.media ≡ no_media)) }
    ensures only { (start : Start) → IsState (arc_value cart) bytes.now start → start.console.shared.recording ≡ arc_value recording → result ≢ Err StateFault.NoMemory
        → result ≡ Ok (record { at = start.at; console = start.console; entries = []; media = no_media }) }
    ensures form { (place : ℕ) → IsErrOf result (StateFault.Form place) → IsInvalidAt (arc_value cart) bytes.now place }
    ensures invalid { (place : ℕ) → IsInvalidAt (arc_value cart) bytes.now place → result ≢ Err StateFault.NoMemory → IsErrOf result (StateFault.Form place) }
    ensures other { (kept given : List ℕ) → IsErrOf result (StateFault.OtherCart kept given) ↔ IsOtherCart (arc_value cart) bytes.now kept given }
{
    let digest = Sha256::digest(cart.bytes());
    read_with(alloc, bytes, &digest, cart, recording)
}

/// The same by the SHA-256 of the cartridge's image, for whoever reads many states of one cartridge. It fails
/// as `read` does.
pub fn read_with(
    alloc: Global,
    bytes: &[u8],
    digest: &[u8; 32],
    cart: Arc<Cart>,
    recording: Arc<Recording>,
) -> Result<Machine, StateFault>
    requires { digest.now ≡ sha256 (arc_value cart) }
    ensures found { IfOk result (λ m. IsState (arc_value cart) bytes.now (record { at = m.at; console = m.console }) × (m.console.shared.recording ≡ arc_value recording)) }
    ensures start { IfOk result (λ m. IsStart (record { at = m.at; console = m.console })) }
    ensures empty { IfOk result (λ m. (m.entries ≡ []) × (m.media ≡ no_media)) }
    ensures only { (start : Start) → IsState (arc_value cart) bytes.now start → start.console.shared.recording ≡ arc_value recording → result ≢ Err StateFault.NoMemory
        → result ≡ Ok (record { at = start.at; console = start.console; entries = []; media = no_media }) }
    ensures form { (place : ℕ) → IsErrOf result (StateFault.Form place) → IsInvalidAt (arc_value cart) bytes.now place }
    ensures invalid { (place : ℕ) → IsInvalidAt (arc_value cart) bytes.now place → result ≢ Err StateFault.NoMemory → IsErrOf result (StateFault.Form place) }
    ensures other { (kept given : List ℕ) → IsErrOf result (StateFault.OtherCart kept given) ↔ IsOtherCart (arc_value cart) bytes.now kept given }
{
    let version = match version_of(bytes) {
        Ok(version) => version,
        Err(place) => return Err(StateFault::Form { place }),
    };
    let kept = digest_at(bytes);
    if !is_same(&kept, digest) {
        return Err(StateFault::OtherCart {
            kept,
            given: *digest,
        });
    }
    match migrated(alloc, version, bytes) {
        Ok(made) => read_newest(alloc, version, newest_of(&made, bytes), cart, recording),
        Err(NoMemory) => Err(StateFault::NoMemory),
    }
}

/// The same of the bytes of the form that is written, made of those of a version: refused at their offsets.
fn read_newest(
    alloc: Global,
    version: Version,
    bytes: &[u8],
    cart: Arc<Cart>,
    recording: Arc<Recording>,
) -> Result<Machine, StateFault>
    requires form { HasForm bytes.now }
    requires own { part_of digest_part bytes.now ≡ sha256 (arc_value cart) }
    ensures found { IfOk result (λ m. IsNewest (arc_value cart) bytes.now (record { at = m.at; console = m.console }) × (m.console.shared.recording ≡ arc_value recording)) }
    ensures pads { IfOk result (λ m. HasPads version bytes.now) }
    ensures start { IfOk result (λ m. IsStart (record { at = m.at; console = m.console })) }
    ensures empty { IfOk result (λ m. (m.entries ≡ []) × (m.media ≡ no_media)) }
    ensures only { (start : Start) → HasPads version bytes.now → IsNewest (arc_value cart) bytes.now start → start.console.shared.recording ≡ arc_value recording → result ≢ Err StateFault.NoMemory
        → result ≡ Ok (record { at = start.at; console = start.console; entries = []; media = no_media }) }
    ensures form { (place : ℕ) → IsErrOf result (StateFault.Form place) → FieldFailsBack version (arc_value cart) bytes.now place }
    ensures invalid { (place : ℕ) → FieldFailsBack version (arc_value cart) bytes.now place → result ≢ Err StateFault.NoMemory → IsErrOf result (StateFault.Form place) }
    ensures own { (kept given : List ℕ) → result ≢ Err (StateFault.OtherCart kept given) }
{
    match read_under(alloc, version, bytes, cart, recording) {
        Ok(machine) => Ok(machine),
        Err(fault) => Err(refusal_of(version, fault)),
    }
}

/// The refusal of a state of a version, from that of a field of the form that is written.
fn refusal_of(version: Version, fault: Unspell) -> StateFault
    ensures { result ≡ refusal_of version fault }
{
    match fault {
        Unspell::Rule { place } => StateFault::Form {
            place: place_back(version, place),
        },
        Unspell::NoMemory => StateFault::NoMemory,
    }
}

/// The machine of the parts after the digest, or the least offset at which a field breaks its rule or that of
/// the version.
fn read_under(
    alloc: Global,
    version: Version,
    bytes: &[u8],
    cart: Arc<Cart>,
    recording: Arc<Recording>,
) -> Result<Machine, Unspell>
    requires { length bytes.now ≡ state_size }
    ensures { Reads (IsMachineUnder version (arc_value cart) (arc_value recording) bytes.now) (FailsUnder version (arc_value cart) bytes.now) result }
{
    let machine = read_machine(alloc, bytes, cart, recording);
    let first = with_rule(machine, has_buttons(version, u16_at(bytes, PADS1)), PADS1);
    with_rule(first, has_buttons(version, u16_at(bytes, PADS2)), PADS2)
}

/// Whether a word has buttons of a version's pad alone; what the newest asks is a rule of the board.
fn has_buttons(version: Version, word: u16) -> bool
    ensures { result ≡ has_buttons version word }
{
    match version {
        Version::First | Version::Second => word < 0x100,
        Version::Third => true,
    }
}

/// The machine of the parts after the digest, or the least offset at which a field breaks its rule.
fn read_machine(
    alloc: Global,
    bytes: &[u8],
    cart: Arc<Cart>,
    recording: Arc<Recording>,
) -> Result<Machine, Unspell>
    requires { length bytes.now ≡ state_size }
    ensures { Reads (IsMachineOf (arc_value cart) (arc_value recording) bytes.now) (FailsAt (arc_value cart) bytes.now) result }
{
    let at = u64_at(bytes, AT.place);
    if at < 1 || at > LAST_CYCLE {
        return Err(Unspell::Rule {
            place: AT.place as u64,
        });
    }
    let region = u8_at(bytes, REGION.place);
    if region > 1 {
        return Err(Unspell::Rule {
            place: REGION.place as u64,
        });
    }
    match read_pieces(alloc, bytes, at, region == 1, cart, recording) {
        Ok(pieces) => Ok(machine_of(alloc, at, pieces)?),
        Err(fault) => Err(fault),
    }
}

/// The items of a state: the processors, the board with the VDP renderer, and the sound chips.
type Pieces = ((Chip68, Chip80), Chips);

/// Both processors, or the least offset at which one of them fails.
#[inline(never)]
fn read_processors(
    alloc: Global,
    bytes: &[u8],
    at: u64,
    cart: Arc<Cart>,
) -> Result<(Chip68, Chip80), Unspell>
    requires whole { length bytes.now ≡ state_size }
    requires cycle { at ≡ at_of bytes.now }
    ensures { Reads (KeepsBoth (IsMain (arc_value cart) bytes.now) (IsSub (arc_value cart) bytes.now))
        (Either (MainFails (arc_value cart) bytes.now) (SubFails (arc_value cart) bytes.now)) result }
{
    let window = cart.clone()?;
    both(
        read_main(alloc, bytes, at, cart),
        read_sub(alloc, bytes, at, window),
    )
}

/// The board with the VDP renderer, and the sound chips.
type Chips = ((Shared, ChipVdp), (FmSynth, PsgSynth));

/// The other chips, or the least offset at which one of them fails.
#[inline(never)]
fn read_chips(
    alloc: Global,
    bytes: &[u8],
    at: u64,
    pal: bool,
    recording: Arc<Recording>,
) -> Result<Chips, Unspell>
    requires whole { length bytes.now ≡ state_size }
    requires cycle { at ≡ at_of bytes.now }
    requires region { pal ≡ region_of bytes.now }
    requires begun { 1 ≤ at }
    requires near { at ≤ last_cycle }
    ensures { Reads (KeepsBoth (KeepsBoth (IsShared (arc_value recording) bytes.now) (IsPicture bytes.now)) (KeepsBoth (IsFm bytes.now) (IsPsg bytes.now)))
        (Either (Either (SharedFails bytes.now) (RendererStateFails bytes.now)) (Either (FmFails bytes.now) (PsgFails bytes.now))) result }
{
    let board = both(
        read_shared(alloc, bytes, at, pal, recording),
        read_renderer_state(alloc, bytes, at, pal),
    );
    let sound = both(read_fm(alloc, bytes, at), read_psg(alloc, bytes, at));
    both(board, sound)
}

/// The items, or the least offset at which one of them fails.
#[inline(never)]
fn read_pieces(
    alloc: Global,
    bytes: &[u8],
    at: u64,
    pal: bool,
    cart: Arc<Cart>,
    recording: Arc<Recording>,
) -> Result<Pieces, Unspell>
    requires whole { length bytes.now ≡ state_size }
    requires cycle { at ≡ at_of bytes.now }
    requires region { pal ≡ region_of bytes.now }
    requires begun { 1 ≤ at }
    requires near { at ≤ last_cycle }
    ensures { Reads (KeepsPieces (arc_value cart) (arc_value recording) bytes.now) (Fails (arc_value cart) bytes.now) result }
{
    let processors = read_processors(alloc, bytes, at, cart);
    let chips = read_chips(alloc, bytes, at, pal, recording);
    both(processors, chips)
}

/// The machine of the items at a cycle.
#[inline(never)]
fn machine_of(alloc: Global, at: u64, pieces: Pieces) -> Result<Machine, NoMemory>
    requires main { at ≤ (next_of pieces.0.0.state).key.cycle }
    requires sub { at ≤ (sub_next_of pieces.0.1.state).key.cycle }
    requires line { at ≤ pieces.1.0.1.next }
    requires view { pieces.1.0.1.has_view ≡ true }
    requires region { pieces.1.0.1.pal ≡ pieces.1.0.0.vdp.pal }
    requires near { at ≤ last_cycle }
    ensures { IfOk result (λ m. m ≡ built at pieces) }
{
    let ((main, sub), ((shared, draw), (fm, psg))) = pieces;
    Machine::from_parts(alloc, at, shared, main, sub, draw, fm, psg)
}

fn is_same(kept: &[u8; 32], given: &[u8; 32]) -> bool
    ensures { IsTrue result ↔ (kept.now ≡ given.now) }
{
    kept == given
}

/// The digest that the bytes keep.
fn digest_at(bytes: &[u8]) -> [u8; 32]
    requires { 40 ≤ length bytes.now }
    ensures { result ≡ part_of digest_part bytes.now }
{
    let mut digest = [0; 32];
    digest.copy_from_slice(DIGEST.of(bytes));
    digest
}
