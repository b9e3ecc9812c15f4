ghost use Rattle.std.specs.Prelude.{◌≡◌, ℕ, ◌+◌, ◌*◌, ◌/◌, ◌%◌, ◌<◌, ◌≤◌, Bool, length, max, if◌then◌else◌};
ghost use Rattle.vdp_planes.specs.Mixing.{base_shade, following, index_of, is_opaque, shaded, shaded_sprite, shade_number, at_shade, sprite_leads, unshaded};
ghost use Rattle.vdp_planes.specs.declared.colours.Shade.{Shade as TheShade};
ghost use Rattle.vdp_planes.specs.Ranks.{after_key, rank_key};

use crate::colours::Shade;
use crate::view::Dot;

/// A colour with its place in the order: the rank of a dot without priority, or four more with it,
/// and 0 where it is transparent.
#[inline(always)]
#[tactic(auto, unfolding(crate::specs::Ranks::rank_key, crate::specs::Mixing::is_opaque))]
fn rank_key(dot: Dot, rank: u16) -> u16
    requires colour { dot.colour < 64 }
    requires rank { rank < 4 }
    ensures { result ≡ rank_key rank dot }
{
    let word = dot.word();
    if word % 16 == 0 { 0 } else { word + 64 * rank }
}

/// The greatest key of the planes and the backdrop.
#[inline(always)]
fn after_key(back: u8, a: Dot, b: Dot) -> u16
    requires back { back < 64 }
    requires a { a.colour < 64 }
    requires b { b.colour < 64 }
    ensures { result ≡ after_key back a b }
{
    u16::from(back).max(rank_key(b, 1)).max(rank_key(a, 2))
}

/// The index of the colour that a dot shows where there is no shadow and highlight.
#[inline(always)]
pub fn unshaded(back: u8, a: Dot, b: Dot, s: Dot) -> u8
    requires back { back < 64 }
    requires a { a.colour < 64 }
    requires b { b.colour < 64 }
    requires s { s.colour < 64 }
    ensures value { result ≡ index_of (unshaded back a b s) }
    ensures below { result < 192 }
{
    let key = after_key(back, a, b).max(rank_key(s, 3));
    (key % 64) as u8 + 64
}

/// The index of a colour in a shade.
#[inline(always)]
#[tactic(auto, unfolding(crate::specs::Mixing::index_of))]
pub fn index_of(colour: u8, shade: Shade) -> u8
    requires { colour < 64 }
    ensures value { result ≡ index_of (at_shade colour shade) }
    ensures below { result < 192 }
{
    match shade {
        Shade::Shadow => colour,
        Shade::Normal => 64 + colour,
        Shade::Highlight => 128 + colour,
    }
}

/// The place in the table of the shade of planes and backdrop: the priority of either plane lifts the
/// shadow.
#[inline(always)]
#[tactic(auto, unfolding(crate::specs::Mixing::base_shade))]
fn base_place(a: Dot, b: Dot) -> u16
    ensures value { result ≡ 64 * shade_number (base_shade a b) }
    ensures below { result ≤ 64 }
{
    if a.priority() || b.priority() { 64 } else { 0 }
}

/// The index of what a sprite in front shows over the colour `under`, where the planes' shade is at
/// `base` in the table.
#[inline(always)]
#[tactic(auto, unfolding(crate::specs::Mixing::index_of, crate::specs::Mixing::shaded_sprite))]
fn shaded_sprite(under: u16, base: u16, s: Dot) -> u16
    requires under { under < 64 }
    requires base { base ≤ 64 }
    requires s { s.colour < 64 }
    ensures value { (shade : TheShade) → base ≡ 64 * shade_number shade → result ≡ index_of (shaded_sprite under shade s) }
    ensures below { result < 192 }
{
    let colour = s.word() % 64;
    let own = if s.priority() || colour % 16 == 14 {
        64
    } else {
        base
    };
    if colour == 62 {
        under + base + 64
    } else if colour == 63 {
        under
    } else {
        colour + own
    }
}

/// The index of the colour that a dot shows with shadow and highlight.
#[inline(always)]
pub fn shaded(back: u8, a: Dot, b: Dot, s: Dot) -> u8
    requires back { back < 64 }
    requires a { a.colour < 64 }
    requires b { b.colour < 64 }
    requires s { s.colour < 64 }
    ensures value { result ≡ index_of (shaded back a b s) }
    ensures below { result < 192 }
{
    let key = after_key(back, a, b);
    let under = key % 64;
    let base = base_place(a, b);
    if key < rank_key(s, 3) {
        shaded_sprite(under, base, s) as u8
    } else {
        (under + base) as u8
    }
}
