ghost use Rattle.std.specs.Prelude.{◌≡◌, ℕ, ◌+◌, ◌/◌, ◌%◌, ◌≤◌, ◌++◌, List, length, map};
ghost use Rattle.md_fields.specs.Fields.{AreSized, Field as Entry, seen};
ghost use Rattle.md_fields.specs.Places.{Stand};
ghost use Rattle.fm_port.specs.PortSpelling as meaning;

use crate::timer::Timer;
use crate::timers::Timers;
use md_fields::{Field, u8_at, u64_at};

/// The longest periods of the timers, in cycles.
const LONGEST_A: u64 = 1_032_192;

const LONGEST_B: u64 = 4_128_768;

/// The numbers that a saved state keeps of a port's latches and timers, whatever they are.
#[derive(Clone, Copy)]
pub struct SavedPort {
    pub first: u8,
    pub second: u8,
    pub high_a: u8,
    pub low_a: u8,
    pub number_b: u8,
    pub control: u8,
    pub run_a: u8,
    pub next_a: u64,
    pub run_b: u8,
    pub next_b: u64,
    pub flag_a: u8,
    pub flag_b: u8,
}

impl SavedPort {
    /// The numbers in the bytes.
    #[tactic(auto, unfolding(md_fields::specs::Places::Stand))]
    pub fn read(bytes: &[u8]) -> SavedPort
        requires { meaning.count_offset ≤ length bytes.now }
        ensures { (at : ℕ) (rest : List Entry) → Stand meaning.count_offset rest bytes.now → Stand 0 (meaning.number_fields at result ++ rest) bytes.now }
    {
        SavedPort {
            first: u8_at(bytes, 0),
            second: u8_at(bytes, 1),
            high_a: u8_at(bytes, 2),
            low_a: u8_at(bytes, 3),
            number_b: u8_at(bytes, 4),
            control: u8_at(bytes, 5),
            run_a: u8_at(bytes, 6),
            next_a: u64_at(bytes, 7),
            run_b: u8_at(bytes, 15),
            next_b: u64_at(bytes, 16),
            flag_a: u8_at(bytes, 24),
            flag_b: u8_at(bytes, 25),
        }
    }

    /// The fields in their order, and whether their rules hold at a cycle.
    #[tactic(auto, unfolding(md_fields::specs::Fields::AreSized))]
    pub fn fields(&self, at: u64) -> [Field<'_>; 12]
        ensures fields { map seen result ≡ meaning.number_fields at self.now }
        ensures sizes { AreSized (map seen result) }
    {
        [
            Field::Byte(self.first, true),
            Field::Byte(self.second, true),
            Field::Byte(self.high_a, true),
            Field::Byte(self.low_a, true),
            Field::Byte(self.number_b, true),
            Field::Byte(self.control, true),
            Field::Byte(self.run_a, self.run_a == self.control % 2),
            Field::Quad(self.next_a, is_next(at, LONGEST_A, self.run_a, self.next_a)),
            Field::Byte(self.run_b, self.run_b == self.control / 2 % 2),
            Field::Quad(self.next_b, is_next(at, LONGEST_B, self.run_b, self.next_b)),
            Field::Byte(self.flag_a, self.flag_a <= 1),
            Field::Byte(self.flag_b, self.flag_b <= 1),
        ]
    }

    /// The timers of which these numbers are kept.
    pub fn timers(&self) -> Timers
        ensures { result ≡ meaning.timers_from self.now }
    {
        Timers {
            high_a: self.high_a,
            low_a: self.low_a,
            number_b: self.number_b,
            control: self.control,
            a: timer_from(self.run_a, self.next_a, self.flag_a),
            b: timer_from(self.run_b, self.next_b, self.flag_b),
        }
    }
}

fn timer_from(run: u8, next: u64, flag: u8) -> Timer
    ensures { result ≡ meaning.timer_from run next flag }
{
    Timer {
        run: run == 1,
        next,
        flag: flag == 1,
    }
}

/// Whether a cycle can be the next overflow of a timer: less than its longest period after `at` where it
/// runs, 0 where it is stopped.
fn is_next(at: u64, longest: u64, run: u8, next: u64) -> bool
    ensures { result ≡ meaning.is_next at longest run next }
{
    if run == 1 {
        at <= next && next - at < longest
    } else {
        next == 0
    }
}
