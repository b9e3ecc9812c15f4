ghost use Rattle.std.specs.Prelude.{◌≤◌, vec_capacity};
ghost use Rattle.save_state.specs.Layout.{apart_size, state_size};

/// The memory for a state that is saved.
#[derive(Drop)]
pub struct StateBuffers {
    /// For what does not stand in its place at once while it is written.
    pub apart: Vec<u8>,
    /// For its bytes.
    pub bytes: Vec<u8>,
    ghost apart_fits: { apart_size ≤ vec_capacity apart },
    ghost bytes_fit: { state_size ≤ vec_capacity bytes },
}
