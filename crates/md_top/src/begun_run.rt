use run_command::{Course, Outputs, StateBuffers};

/// A run before its first segment. Its outputs are begun, and all memory that it needs is taken.
#[derive(Drop)]
pub(crate) struct BegunRun {
    pub outputs: Outputs,
    /// The run at its start.
    pub course: Course,
    /// For the state at its end, if it is to be saved.
    pub buffers: Option<StateBuffers>,
}
