// What a data access reaches: bits CD3 to CD0 of the code. Source: Genesis Technical Overview, the
// access to the VDP's memories.

pub(crate) const VRAM_READ: u8 = 0;

pub(crate) const VRAM_WRITE: u8 = 1;

pub(crate) const CRAM_WRITE: u8 = 3;

pub(crate) const VSRAM_READ: u8 = 4;

pub(crate) const VSRAM_WRITE: u8 = 5;

pub(crate) const CRAM_READ: u8 = 8;
