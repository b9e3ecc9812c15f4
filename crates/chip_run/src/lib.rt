//! The bus lock and the workers: the chips of one run are moved by several threads, each chip by
//! the thread that holds it, with all that they share behind one lock.
//!
//! Whatever threads there are and however they take turns, the core that `run_core` returns is the one
//! that a single thread would have made. A chip makes its event only where the core of chip_core lets it
//! (`laws::section`). So what lies behind the lock always stands for the run's base (`laws::standing`).
//!
//! There are five kinds of step on what lies behind the lock: `make`, a section of a round, a wait that gives
//! the lock back unchanged, the leader's whole turn of a chip, and `gather`. Which threads there are, and how chips
//! go between them, is work_sharing's. That a thread gets on, or that several run at once, is promised nowhere.
#![tactic(auto)]

mod blanks;
mod bus;
mod gathering;
mod held;
mod helds;
mod holding;
pub mod laws;
mod leading;
mod locked;
mod making;
mod named;
mod parts;
mod passage;
mod round;
mod running;
mod sections;
mod stepped;
mod sweep;
mod turn;
mod turns;
mod whole;
mod workers;

pub use blanks::Blanks;
pub use bus::Bus;
pub use gathering::gather;
pub use held::{Due, Held};
pub use helds::Helds;
pub use locked::Locked;
pub use named::{Ledgers, Named, Run, RunName};
pub use parts::Parts;
pub use passage::Passage;
pub use round::Round;
pub use running::run_core;
pub use turn::Turn;
pub use workers::work;
