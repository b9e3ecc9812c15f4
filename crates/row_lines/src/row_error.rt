use std::alloc::AllocError;

/// Why a line is not carried out.
#[derive(Clone, Copy)]
pub enum RowError {
    /// It is none of the language.
    NoSuchLine,
    /// It names a file or a thing that is not there.
    NoSuchName,
    /// Out of memory.
    Memory,
}

impl RowError {
    /// What is printed in the place of what came.
    pub fn text(self) -> &'static str {
        match self {
            RowError::NoSuchLine => "no such line",
            RowError::NoSuchName => "no such name",
            RowError::Memory => "out of memory",
        }
    }
}

impl From<AllocError> for RowError {
    fn from(_: AllocError) -> Self {
        RowError::Memory
    }
}
