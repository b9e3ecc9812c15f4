use crate::Names;
use crate::cells::Cells;
use crate::entry::Entry;
use crate::processor::Processor;

/// The state after the lines so far.
#[derive(Drop)]
pub(crate) struct Pass<'a> {
    pub(crate) place: u32,
    pub(crate) processor: Processor,
    pub(crate) names: Names<'a>,
    pub(crate) cells: Cells,
    pub(crate) entries: Vec<Entry<'a>>,
    /// The place after the last byte.
    pub(crate) end: u32,
}
