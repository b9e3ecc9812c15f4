//! Each access: its answer, its entry in the journal, and what it changes on the board.
ghost use Rattle.std.specs.Prelude.{◌≡◌, ◌<◌, ◌≤◌, None};
ghost use Rattle.md_word.specs.Clock.{cycle_limit};
ghost use Rattle.fm_port.specs.Port as fm_ports;
ghost use Rattle.psg_sound.specs.Port.{taken_below};
ghost use Rattle.bus_shared.specs.Accesses.{carried, chip_of, answer_value_of};
ghost use Rattle.bus_shared.specs.Accesses as accesses;
ghost use Rattle.bus_shared.specs.Entries as entries;
ghost use Rattle.bus_shared.specs.Fm as fm;
ghost use Rattle.z80_parcel.specs.Requests.{request_value80_of, answer_value80_of};

use crate::entries::{fm_entry, line_entry, main_entry, psg_entry, sub_entry};
use crate::pins::pins68;
use crate::prerendered::stays;
use crate::request::{Answer, Request};
use crate::shared::Shared;
use crate::video::{begin_line, show};
use fm_port::FmList;
use md_word::{Answer68, Answer80, Entry, Key, Request68, Request80, Transfer};
use psg_sound::PsgList;
use vdp_planes::SpriteNote;
use vdp_time::line_of;

impl Shared {
    /// What an access answers the 68000, with what it changes.
    #[tactic(auto, unfolding(crate::specs::Accesses::main_answer, crate::specs::Accesses::main_value, crate::specs::Accesses::main_transfer, crate::specs::Accesses::main_cost, crate::specs::Accesses::main_board))]
    fn main_answer(&mut self, key: Key, request: Request68) -> Answer68
        requires chip { key.chip ≡ 0 }
        requires soon { key.cycle ≤ cycle_limit }
        ensures answer { result ≡ accesses.main_answer self.old key request }
        ensures board { self.new ≡ accesses.main_board self.old key request }
    {
        match request {
            Request68::Read8(address) => answer_of(u16::from(self.read_byte(key, address))),
            Request68::Read16(address) => answer_of(self.read_word(key, address)),
            Request68::Write8(address, value) => started(self.write_byte(key, address, value)),
            Request68::Write16(address, value) => started(self.write_word(key, address, value)),
            Request68::Ack(level) => {
                self.acknowledge(level);
                answer_of(0)
            }
            Request68::Word(value) => costing(self.take_word(key, value)),
        }
    }

    /// Carries out an access of the 68000, at a cycle of at most 2^50: its answer, and its entry in the
    /// journal. It does what [`carry_out`] does with such a request.
    #[tactic(auto, unfolding(crate::specs::Accesses::main_answer, crate::specs::Accesses::main_reported))]
    pub fn carry_out_main(&mut self, key: Key, request: Request68) -> (Answer68, Entry)
        requires chip { key.chip ≡ 0 }
        requires soon { key.cycle ≤ cycle_limit }
        ensures answer { result.0 ≡ accesses.main_answer self.old key request }
        ensures entry { result.1 ≡ accesses.main_reported self.old key request }
        ensures board { self.new ≡ accesses.main_board self.old key request }
    {
        let a = self.vdp.a;
        let answer = self.main_answer(key, request);
        (answer, main_entry(key, request, answer.value, a))
    }

    /// Carries out an access of the Z80, at a cycle of at most 2^50: its answer, and its entry in the
    /// journal. It does what [`carry_out`] does with such a request.
    #[tactic(auto, unfolding(crate::specs::Accesses::sub_access))]
    pub fn carry_out_sub(&mut self, key: Key, request: Request80) -> (Answer80, Entry)
        requires chip { key.chip < 2 }
        requires soon { key.cycle ≤ cycle_limit }
        ensures answer { answer_value80_of result.0 ≡ (accesses.sub_access self.old key (request_value80_of request)).answer }
        ensures entry { result.1 ≡ (accesses.sub_access self.old key (request_value80_of request)).entry }
        ensures board { self.new ≡ (accesses.sub_access self.old key (request_value80_of request)).board }
    {
        match request {
            Request80::Read(at) => {
                let value = self.read_chip(key.cycle, at);
                (Answer80::Value(value), sub_entry(key, 6, at, value))
            }
            Request80::Write(at, value) => {
                self.sub_write(key, at, value);
                (Answer80::Done, sub_entry(key, 7, at, value))
            }
            Request80::Yield(parcel) => self.yield_parcel(key, parcel),
            Request80::Take => self.take_parcel(key),
        }
    }

    /// Carries out the start of a line.
    #[tactic(auto, unfolding(crate::specs::Accesses::line_board))]
    fn line(&mut self, cycle: u64, note: SpriteNote)
        requires { cycle ≤ cycle_limit }
        ensures { self.new ≡ accesses.line_board self.old cycle note }
    {
        let first = line_of(cycle, self.vdp.pal) == 0;
        self.fits = stays(self.fits, self.vdp.left, first);
        begin_line(&mut self.vdp, cycle, note);
        self.change_pads(cycle);
    }

    /// Moves the writes of the FM chip that are stamped below a cycle into `into`.
    #[tactic(auto, unfolding(crate::specs::Fm::fm_board))]
    fn take_fm(&mut self, cycle: u64, into: &mut FmList)
        ensures taken { into.new.items ≡ fm_ports.taken_below cycle self.old.fm.writes }
        ensures board { self.new ≡ fm.fm_board self.old cycle }
    {
        self.fm.take(cycle, into);
    }

    /// Moves the writes of the PSG that are stamped below a cycle into `into`.
    #[tactic(auto, unfolding(crate::specs::Accesses::psg_board))]
    fn take_psg(&mut self, cycle: u64, into: &mut PsgList)
        ensures taken { into.new.items ≡ taken_below cycle self.old.psg }
        ensures board { self.new ≡ accesses.psg_board self.old cycle }
    {
        self.psg.take(cycle, into);
    }
}

/// The answer to an access that gives a value, 0 where it gives none.
fn answer_of(value: u16) -> Answer68
    ensures { result ≡ record { value = value; transfer = None; cost = 0 } }
{
    Answer68 {
        value,
        transfer: None,
        cost: 0,
    }
}

/// The answer to a write that may start a transfer.
fn started(transfer: Option<Transfer>) -> Answer68
    ensures { result ≡ record { value = 0; transfer = transfer; cost = 0 } }
{
    Answer68 {
        value: 0,
        transfer,
        cost: 0,
    }
}

/// The answer to a word of a transfer, with the master cycles to the next.
fn costing(cost: u16) -> Answer68
    ensures { result ≡ record { value = 0; transfer = None; cost = cost } }
{
    Answer68 {
        value: 0,
        transfer: None,
        cost,
    }
}

/// Carries out one access of the chip whose key it is, at a cycle of at most 2^50: its answer, and its
/// entry in the journal.
#[tactic(auto, unfolding(crate::specs::Accesses::carried))]
pub fn carry_out(shared: &mut Shared, key: Key, request: Request) -> (Answer, Entry)
    requires chip { key.chip ≡ chip_of request }
    requires soon { key.cycle ≤ cycle_limit }
    ensures answer { answer_value_of result.0 ≡ (carried shared.old key request).answer }
    ensures entry { result.1 ≡ (carried shared.old key request).entry }
    ensures board { shared.new ≡ (carried shared.old key request).board }
{
    match request {
        Request::Main(request) => {
            let (answer, entry) = shared.carry_out_main(key, request);
            (Answer::Main(answer), entry)
        }
        Request::Sub(request) => {
            let (answer, entry) = shared.carry_out_sub(key, request);
            (Answer::Sub(answer), entry)
        }
        Request::Line(mut view, note) => {
            let entry = start_line(shared, key, note);
            show(&shared.vdp, key.cycle, &mut view);
            (Answer::Line(view), entry)
        }
        Request::Fm(mut list) => {
            shared.take_fm(key.cycle, &mut list);
            let taken = list.len() as u16;
            (Answer::Fm(list), fm_entry(key, taken))
        }
        Request::Psg(mut list) => {
            shared.take_psg(key.cycle, &mut list);
            let taken = list.len() as u16;
            (Answer::Psg(list), psg_entry(key, taken))
        }
    }
}

/// Carries out the start of a line, with what the sprites of the line before have set, at a cycle of at
/// most 2^50: its entry in the journal. The line may then be drawn from the board's `scene`, which is
/// what the view of a request would show.
pub fn start_line(shared: &mut Shared, key: Key, note: SpriteNote) -> Entry
    requires { key.cycle ≤ cycle_limit }
    ensures board { shared.new ≡ accesses.line_board shared.old key.cycle note }
    ensures entry { result ≡ entries.line_entry shared.new.vdp.pal key (accesses.level_of shared.new) }
{
    shared.line(key.cycle, note);
    line_entry(shared.pal(), key, pins68(shared).level)
}
