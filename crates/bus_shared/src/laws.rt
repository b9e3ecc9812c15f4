//! Laws of the board, each the contract of a call that does nothing.

ghost use Rattle.std.specs.Prelude.{◌≡◌, ℕ, ◌≤◌};
ghost use Rattle.md_word.specs.declared.main_bus.Request68.{Request68};
ghost use Rattle.md_word.specs.declared.key.Key.{Key};
ghost use Rattle.bus_shared.specs.Accesses.{main_board, psg_board, sub_access, sub_pins};
ghost use Rattle.bus_shared.specs.Fm.{fm_board};
ghost use Rattle.bus_shared.specs.Board.{Board, IsBoard};
ghost use Rattle.bus_shared.specs.Laws.{BatchLeaves, FmBatchLeaves, IsBesideLines, LeavesPins, LineLeaves, MainLeaves, StaysBoard, SubLeaves, ReportsMain, WritersLaw};
ghost use Rattle.bus_shared.specs.Settled.{SeesNoSettling};
ghost use Rattle.bus_shared.specs.declared.request.Request.{Request};
ghost use Rattle.vdp_planes.specs.declared.view.SpriteNote.{SpriteNote};
ghost use Rattle.vdp_ports.specs.Vdp.{Vdp};
ghost use Rattle.z80_parcel.specs.Requests.{RequestValue80};

/// What an access of each chip leaves as it was. The 68000 leaves the recording and the buttons, and where
/// it reads all but the VDP and the FM chip's timers. The Z80 leaves these, the pads' latches, its own lines
/// and the VDP. A line leaves all but the buttons and the VDP. A batch leaves all but the writes that the
/// port of its chip holds.
#[tactic(auto, using(crate::proofs::Touches::left_by_main, crate::proofs::Touches::left_by_sub, crate::proofs::Touches::left_by_line, crate::proofs::Touches::left_by_batch, crate::proofs::Touches::left_by_fm_batch))]
pub fn each_chip_touches_its_part()
    ensures main { (board : Board) (key : Key) → MainLeaves board key }
    ensures sub { (board : Board) (key : Key) (request : RequestValue80) → SubLeaves board key request }
    ensures line { (board : Board) (cycle : ℕ) (note : SpriteNote) → LineLeaves board cycle note }
    ensures batch { (board : Board) (cycle : ℕ) → BatchLeaves board cycle }
    ensures fm_batch { (board : Board) (cycle : ℕ) → FmBatchLeaves board cycle }
{}

/// Accesses of the Z80, of FM and of the PSG leave the pins of both processors as they were, and those of the
/// 68000 the Z80's, but for writes to its bus request and its reset.
pub fn pins_have_two_writers()
    ensures all { (board : Board) (key : Key) (request : Request) → WritersLaw board key request }
    ensures sub { (board : Board) (key : Key) (request : RequestValue80) → LeavesPins board (sub_access board key request).board }
    ensures batch { (board : Board) (cycle : ℕ) → LeavesPins board (psg_board board cycle) }
    ensures fm_batch { (board : Board) (cycle : ℕ) → LeavesPins board (fm_board board cycle) }
    ensures beside { (board : Board) (key : Key) (request : Request68) → IsBesideLines request → sub_pins (main_board board key request) ≡ sub_pins board }
{}

/// What a board answers the 68000: a byte, a word, a transfer of 1 to 65,536 words at an even address
/// below 2^24, and what a word of one costs, 34 or 380 master cycles.
#[tactic(auto, using(crate::proofs::Values::reports))]
pub fn answers_have_their_ranges()
    ensures { (board : Board) (key : Key) → IsBoard board → ReportsMain board key }
{}

/// Accesses of the 68000, lines and batches leave a board.
#[tactic(auto, using(crate::proofs::Keeps::stays))]
pub fn boards_stay()
    ensures { (board : Board) (key : Key) → IsBoard board → StaysBoard board key }
{}

/// No access observes whether a fill or copy was settled to an earlier cycle: each answers the same, and
/// leaves the same VDP once that is settled to the access's cycle.
pub fn settling_is_unseen()
    ensures { (earlier : ℕ) (cycle : ℕ) (vdp : Vdp) → earlier ≤ cycle → SeesNoSettling earlier cycle vdp }
{}
