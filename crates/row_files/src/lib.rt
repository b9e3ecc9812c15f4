//! Files of rows in memory: those of a row, those that are kept for the rows after it, and what parts of them make.
#![tactic(auto)]

mod named_files;
mod parts;
mod store;

pub use parts::{build, digits, file, file_from, lower_digits};
pub use store::{Failing, Store, list_of};
