ghost use Rattle.md_outer.specs.Outside.{SinkState, PutsText};

/// An append to a file, or a write to a sink, failed.
#[derive(Clone, Copy, PartialEq, Eq, Debug)]
pub struct Failed;

/// A stream of bytes that only grows, as standard output.
pub trait Sink {
    /// Whether contracts observe the bytes.
    ghost observable: { Type 0 };

    /// The bytes that were written, and the count of faults.
    ghost state: { Self → SinkState };

    /// Writes the piece after all that was written before. It takes no memory.
    ///
    /// It is `Failed` where the stream did not take the whole piece: then the count of faults rose,
    /// and a prefix of the piece was written, which may be empty.
    fn put(&mut self, piece: &[u8]) -> Result<(), Failed>
        ensures { PutsText observable piece.now (state self.old) (state self.new) result };
}
