ghost use Rattle.std.specs.Prelude.{◌≡◌, ◌+◌, ◌*◌, ◌<◌, ◌≤◌, ◌≤ℤ◌, ◌+ℤ◌, pos, slice_index};
ghost use Rattle.fm_chip.specs.Lfo as meaning;

/// The low frequency oscillator (LFO), for tremolo and vibrato.
///
/// Source: Yamaha, YM2608 Application Manual, LFO; its depths are this project's profile.
#[derive(Clone, Copy)]
pub struct Lfo {
    /// Its place, below 128.
    pub t: u32,
    /// The samples since its last step, below 108.
    pub count: u32,
}

/// The samples from one step to the next.
const PERIODS: [u8; 8] = [108, 77, 71, 67, 62, 44, 8, 5];

/// How much of tremolo is heard at each depth, in eighths.
const EIGHTHS: [u8; 4] = [0, 1, 4, 8];

/// What vibrato multiplies by, at each depth.
const FACTORS: [u8; 8] = [0, 1, 2, 3, 4, 6, 12, 24];

impl Lfo {
    /// Advances to the next sample, by register 22: bit 3 is on, the low three its rate. Off, it is
    /// at 0.
    #[tactic(auto, unfolding(crate::specs::Lfo::stepped))]
    pub fn step(&mut self, register: u8)
        requires t { self.old.t < 128 }
        requires count { self.old.count < 108 }
        ensures value { self.new ≡ meaning.stepped register self.old }
        ensures t { self.new.t < 128 }
        ensures count { self.new.count < 108 }
    {
        if register / 8 % 2 == 0 {
            *self = Lfo { t: 0, count: 0 };
            return;
        }
        let count = self.count + 1;
        if period(register % 8) <= count {
            *self = Lfo {
                t: (self.t + 1) % 128,
                count: 0,
            };
        } else {
            self.count = count;
        }
    }
}

/// The samples from one step to the next at a rate.
fn period(rate: u8) -> u32
    requires { rate < 8 }
    ensures value { result ≡ slice_index meaning.periods rate }
    ensures most { result ≤ 108 }
{
    u32::from(PERIODS[usize::from(rate)])
}

/// Tremolo at its whole depth.
#[tactic(auto, unfolding(crate::specs::Lfo::triangle))]
fn triangle(t: u32) -> u32
    requires { t < 128 }
    ensures value { result ≡ meaning.triangle t }
    ensures below { result < 127 }
{
    if t < 64 { 2 * t } else { 2 * (127 - t) }
}

/// How much of tremolo is heard at a depth.
fn eighths(depth: u32) -> u32
    requires { depth < 4 }
    ensures value { result ≡ slice_index meaning.eighths depth }
    ensures most { result ≤ 8 }
{
    u32::from(EIGHTHS[depth as usize])
}

/// What tremolo adds to an attenuation, at a depth.
#[tactic(auto, unfolding(crate::specs::Lfo::tremolo))]
pub fn tremolo(depth: u32, t: u32) -> u32
    requires depth { depth < 4 }
    requires t { t < 128 }
    ensures value { result ≡ meaning.tremolo depth t }
    ensures below { result < 127 }
{
    triangle(t) * eighths(depth) / 8
}

/// Vibrato's deviation without its sign, at one of its 32 places.
#[tactic(auto, unfolding(crate::specs::Lfo::swing))]
fn swing(q: u32) -> u32
    requires { q < 32 }
    ensures value { result ≡ meaning.swing q }
    ensures most { result ≤ 8 }
{
    match q {
        0..8 => q,
        8..16 => 16 - q,
        16..24 => q - 16,
        _ => 32 - q,
    }
}

/// What a depth of vibrato multiplies by.
fn factor(depth: u32) -> u32
    requires { depth < 8 }
    ensures value { result ≡ slice_index meaning.factors depth }
    ensures most { result ≤ 24 }
{
    u32::from(FACTORS[depth as usize])
}

/// What vibrato changes a frequency by, without its sign.
#[tactic(auto, unfolding(crate::specs::Lfo::share))]
fn share(fnum: u32, depth: u32, place: u32) -> u32
    requires fnum { fnum < 2048 }
    requires depth { depth < 8 }
    requires place { place < 32 }
    ensures value { result ≡ meaning.share fnum depth place }
    ensures below { result ≤ fnum }
    ensures most { result ≤ 95 }
{
    fnum * (swing(place) * factor(depth)) / 4096
}

/// What vibrato adds to a frequency, at a depth and one of its 32 places: a quarter of the
/// oscillator's.
#[tactic(auto, using(std::proofs::lemmas::Int::ints), unfolding(crate::specs::Lfo::gain))]
pub fn gain(fnum: u32, depth: u32, place: u32) -> i32
    requires fnum { fnum < 2048 }
    requires depth { depth < 8 }
    requires place { place < 32 }
    ensures value { result ≡ meaning.gain fnum depth place }
    ensures sum { pos 0 ≤ℤ (pos fnum +ℤ result) }
    ensures most { result ≤ℤ pos 95 }
{
    let share = share(fnum, depth, place) as i32;
    if place < 16 { share } else { -share }
}
