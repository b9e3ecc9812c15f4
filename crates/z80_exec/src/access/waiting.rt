ghost use Rattle.std.specs.Prelude.{◌≡◌};
ghost use Rattle.z80_exec.specs.Access.Clauses.{request_of};

use md_word::Request80;

/// A shared access that waits for its answer. Addresses are the Z80's.
#[derive(Clone, Copy)]
pub enum Waiting {
    /// A read of the byte at an address.
    Read(u16),
    /// A write of a byte at an address.
    Write(u16, u8),
}

impl Waiting {
    /// The access as a request on the bus.
    pub fn request(self) -> Request80
        ensures { result ≡ request_of self }
    {
        match self {
            Waiting::Read(at) => Request80::Read(at),
            Waiting::Write(at, value) => Request80::Write(at, value),
        }
    }
}
