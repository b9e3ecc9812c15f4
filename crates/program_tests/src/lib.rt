//! Tests of the whole program that need a gate of their own, of the real store and stream, of frames that are a
//! recording, of the fields of saved states, and of the images that a session of two players keeps.
#![tactic(auto)]

#[cfg(test)]
mod depots;
#[cfg(test)]
mod fields;
#[cfg(test)]
mod images;
#[cfg(test)]
mod meeting;
#[cfg(test)]
mod pads;
#[cfg(test)]
mod workers;
