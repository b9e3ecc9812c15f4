ghost use Rattle.std.specs.Prelude.{◌≡◌, ◌+◌, ◌*◌, ◌≤◌, length, slice_index};
ghost use Rattle.std.specs.Int.{w16, w32, w64};
ghost use Rattle.md_fields.specs.Places.{number_at, WordsAt};

/// The byte at an offset.
pub fn u8_at(bytes: &[u8], place: usize) -> u8
    requires { place + 1 ≤ length bytes.now }
    ensures { result ≡ slice_index bytes.now place }
{
    bytes[place]
}

/// The big-endian number in two bytes from an offset on.
#[tactic(auto, unfolding(crate::specs::Places::number_at))]
pub fn u16_at(bytes: &[u8], place: usize) -> u16
    requires { place + 2 ≤ length bytes.now }
    ensures { result ≡ number_at w16 place bytes.now }
{
    u16::from_be_bytes([bytes[place], bytes[place + 1]])
}

/// The big-endian number in four bytes from an offset on.
#[tactic(auto, unfolding(crate::specs::Places::number_at))]
pub fn u32_at(bytes: &[u8], place: usize) -> u32
    requires { place + 4 ≤ length bytes.now }
    ensures { result ≡ number_at w32 place bytes.now }
{
    u32::from_be_bytes([
        bytes[place],
        bytes[place + 1],
        bytes[place + 2],
        bytes[place + 3],
    ])
}

/// The big-endian number in eight bytes from an offset on.
#[tactic(auto, unfolding(crate::specs::Places::number_at))]
pub fn u64_at(bytes: &[u8], place: usize) -> u64
    requires { place + 8 ≤ length bytes.now }
    ensures { result ≡ number_at w64 place bytes.now }
{
    u64::from_be_bytes([
        bytes[place],
        bytes[place + 1],
        bytes[place + 2],
        bytes[place + 3],
        bytes[place + 4],
        bytes[place + 5],
        bytes[place + 6],
        bytes[place + 7],
    ])
}

/// The big-endian numbers in two bytes each from an offset on.
pub fn words_at<const N: usize>(bytes: &[u8], place: usize) -> [u16; N]
    requires { place + 2 * N ≤ length bytes.now }
    ensures { WordsAt result place bytes.now }
{
    let mut words = [0; N];
    for index in 0..N {
        words[index] = u16_at(bytes, place + 2 * index);
    }
    words
}
