//! Tests of what waits: the bus lock and the workers at gates of their own, at five small chips and at two, and the
//! double buffer by which lines of the picture are rendered ahead.
#![tactic(auto)]

#[cfg(test)]
mod crowd;
#[cfg(test)]
mod double_buffer;
#[cfg(test)]
mod job;
#[cfg(test)]
mod laws;
#[cfg(test)]
mod locks;
#[cfg(test)]
mod meeting;
#[cfg(test)]
mod pair;
#[cfg(test)]
mod turns;
#[cfg(test)]
mod workers;
