//! The clocks of the machine, in cycles of the NTSC master clock of 53,693,175 Hz. Source: Genesis
//! Technical Overview; the batch and the last cycle are this project's profile.

/// A clock of the 68000.
pub const MAIN_CLOCK: u64 = 7;

/// A clock of the Z80.
pub const SUB_CLOCK: u64 = 15;

/// A line of the picture.
pub const LINE: u64 = 3_420;

/// A frame of 262 lines.
pub const FRAME: u64 = 896_040;

/// A sample of the FM chip.
pub const FM_SAMPLE: u64 = 1_008;

/// A tick of the programmable sound generator.
pub const PSG_TICK: u64 = 240;

/// A batch of 16 samples of the sound chips.
pub const BATCH: u64 = 16_128;

/// The least number of cycles from an event of the 68000 to its next: an access takes four of its clocks.
pub const MAIN_GAP: u64 = 28;

/// The least number of cycles from an event of the Z80 to its next: an access takes three of its clocks.
pub const SUB_GAP: u64 = 45;

/// The last cycle to which a run may go: nearly three hours.
pub const LAST_CYCLE: u64 = 549_755_813_888;
