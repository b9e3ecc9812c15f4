//! Work sharing between the threads of a run: a leader, who takes the turns of all chips, helpers, who do private
//! work that is worth offloading, and the work queue through which chips go between them.
//!
//! What a chip is, and what its turns do, stands in two traits. The queue knows of a chip its number alone, and
//! whether private work of it is due: a chip that comes back from the queue has none.
#![tactic(auto)]

mod holder;
mod led;
mod sharing;
mod turns;
mod work_queue;

pub use holder::Holder;
pub use led::Led;
pub use sharing::share;
pub use turns::Turns;
pub use work_queue::WorkQueue;
