ghost use Rattle.std.specs.Prelude.{◌≡◌, ◌+◌, ◌*◌, ◌<◌, ◌≤◌, slice_index};
ghost use Rattle.fm_voice.specs.Steps as steps;

/// Eight rows of eight places: four rows for the rates below 48, four for those from 48 on.
///
/// Source: Yamaha, YM2608 Application Manual, envelope generator; the steps are this project's profile.
const ROWS: [u8; 64] = [
    0, 1, 0, 1, 0, 1, 0, 1, //
    0, 1, 0, 1, 1, 1, 0, 1, //
    0, 1, 1, 1, 0, 1, 1, 1, //
    0, 1, 1, 1, 1, 1, 1, 1, //
    1, 1, 1, 1, 1, 1, 1, 1, //
    1, 1, 1, 2, 1, 1, 1, 2, //
    1, 2, 1, 2, 1, 2, 1, 2, //
    1, 2, 2, 2, 1, 2, 2, 2,
];

fn row_entry(row: u32, place: u32) -> u32
    requires row { row < 8 }
    requires place { place < 8 }
    ensures value { result ≡ slice_index steps.rows (row * 8 + place) }
    ensures below { result ≤ 2 }
{
    u32::from(ROWS[(row * 8 + place) as usize])
}

/// An envelope of this rate steps where 2 to this power divides the shared counter.
#[tactic(auto, unfolding(crate::specs::Steps::shift_of))]
fn shift_of(rate: u32) -> u32
    ensures value { result ≡ steps.shift_of rate }
    ensures below { result < 12 }
{
    if rate < 48 { 11 - rate / 4 } else { 0 }
}

/// The step at a place of the rate's row, 0 to 8.
#[tactic(auto, unfolding(crate::specs::Steps::entry))]
fn entry(rate: u32, place: u32) -> u32
    requires rate { rate < 64 }
    requires place { place < 8 }
    ensures value { result ≡ steps.entry rate place }
    ensures below { result ≤ 8 }
{
    match rate {
        0..48 => row_entry(rate % 4, place),
        48..52 => row_entry(4 + rate % 4, place),
        52..56 => 2 * row_entry(4 + rate % 4, place),
        56..60 => 4 * row_entry(4 + rate % 4, place),
        _ => 8,
    }
}

/// By how much an envelope of this rate, 0 to 63, steps where the shared counter has reached
/// `counter`: 0 to 8.
#[tactic(auto, unfolding(crate::specs::Steps::step))]
pub fn step(counter: u32, rate: u32) -> u32
    requires { rate < 64 }
    ensures value { result ≡ steps.step counter rate }
    ensures below { result ≤ 8 }
{
    if rate < 2 {
        return 0;
    }
    let shift = shift_of(rate);
    let count = counter >> shift;
    if count << shift != counter {
        return 0;
    }
    entry(rate, count % 8)
}
