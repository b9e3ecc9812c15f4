//! The sprites of a line: which are chosen, and their dots.
#![tactic(auto)]

mod chosen;
mod draw;
mod line;
mod parts;
mod sprite;

pub use draw::{draw_sprites, sprite_line};
pub use line::draw_line_sprites;
pub use sprite::Sprite;
