ghost use Rattle.std.specs.Prelude.{◌≡◌, ◌<◌, ◌≤ℤ◌, pos, negsuc};
ghost use Rattle.psg_sound.specs.Voices.{signed_level};

/// The amplitude of each volume: 2 dB less a step, and none at 15.
///
/// Source: Texas Instruments, SN76489AN data sheet, attenuation; the scale is this project's profile.
const AMPLITUDES: [u16; 16] = [
    2048, 1627, 1292, 1026, 815, 648, 514, 409, 325, 258, 205, 163, 129, 103, 82, 0,
];

/// What a channel of this volume, 0 to 15, adds to the level: its amplitude, positive where the
/// bit is 1 and negative where it is 0.
pub fn signed_level(bit: bool, volume: u8) -> i32
    requires { volume < 16 }
    ensures value { result ≡ signed_level bit volume }
    ensures least { negsuc 2047 ≤ℤ result }
    ensures most { result ≤ℤ pos 2048 }
{
    let amplitude = i32::from(AMPLITUDES[usize::from(volume)]);
    if bit { amplitude } else { -amplitude }
}
