//! The lines of the picture: the two planes with the window, and the mixing of their dots with those
//! of the sprites into bytes of red, green and blue.
#![tactic(auto)]

mod cells;
mod colours;
mod fields;
mod line;
mod mix;
pub mod register;
mod screen;
mod scroll;
mod view;
mod window;

pub use cells::{pixel, row_pixels};
pub use fields::word;
pub use line::{draw_plane, plane_line};
pub use screen::{mix_dots, mix_line};
pub use view::{
    Dot, Dots, LineView, PICTURE_WIDTH, SCANLINE_LENGTH, Scene, SpriteNote, fill_view, scene_of,
};
pub use window::width_of;
