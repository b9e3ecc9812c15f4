ghost use Rattle.std.specs.Prelude.{◌≡◌};
ghost use Rattle.md_pads.specs.Recording.{lead, six};

/// The version of a recording's file, and which of its pads have six buttons.
/// Source: this project's profile.
#[derive(Clone, Copy, PartialEq, Eq, Debug)]
pub enum Version {
    /// Both pads have three buttons.
    First,
    Second {
        /// Whether pad 1 has six.
        pad1: bool,
        /// Whether pad 2 has six.
        pad2: bool,
    },
}

impl Version {
    /// What the file of a recording begins with: a magic of eight bytes and, in the second version, a word of
    /// flags, big-endian, in which bit 0 is that of pad 1 and bit 1 that of pad 2.
    pub fn lead(self) -> &'static [u8]
        ensures { result.now ≡ lead self }
    {
        match self {
            Version::First => b"MDREC001",
            Version::Second {
                pad1: false,
                pad2: false,
            } => b"MDREC002\x00\x00",
            Version::Second {
                pad1: true,
                pad2: false,
            } => b"MDREC002\x00\x01",
            Version::Second {
                pad1: false,
                pad2: true,
            } => b"MDREC002\x00\x02",
            Version::Second {
                pad1: true,
                pad2: true,
            } => b"MDREC002\x00\x03",
        }
    }

    /// Whether a pad, 1 or 2, has six buttons; no other pad has.
    pub fn six(self, pad: u8) -> bool
        ensures { result ≡ six self pad }
    {
        match (self, pad) {
            (Version::Second { pad1, .. }, 1) => pad1,
            (Version::Second { pad2, .. }, 2) => pad2,
            _ => false,
        }
    }
}
