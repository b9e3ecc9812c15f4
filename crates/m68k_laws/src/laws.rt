ghost use Rattle.m68k_laws.specs.Laws.{InstructionsFollowFootprints};
ghost use Rattle.m68k_laws.specs.Samples.{ExceptionsFollowFrames, SamplesFollowFootprints};

/// The requests of each instruction are the shared words of its footprint in order.
pub fn instructions_follow_footprints()
    ensures { InstructionsFollowFootprints }
{}

/// So are those of a sample; after them come those of the frame of an exception in which it ends.
pub fn samples_follow_footprints()
    ensures { SamplesFollowFootprints }
{}

/// The requests of an interrupt, after its acknowledge, and of a trace are the shared words of its frame in
/// order.
pub fn exceptions_follow_frames()
    ensures { ExceptionsFollowFrames }
{}
