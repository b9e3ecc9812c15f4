/// SHA-256 of each output of a run, without the heads of whole files.
#[derive(Clone, Copy)]
pub struct Digests {
    /// That of its frames, each with its head.
    pub frames: [u8; 32],
    /// That of its pairs of samples.
    pub samples: [u8; 32],
    /// That of the records of its journal.
    pub journal: [u8; 32],
}
