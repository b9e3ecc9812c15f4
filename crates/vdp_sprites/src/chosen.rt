ghost use Rattle.std.specs.Prelude.{◌≡◌, ℕ, ◌+◌, ◌<◌, ◌≤◌, Bool, true, false, List, [], ◌∷◌, ◌++◌, filter, length};
ghost use Rattle.vdp_planes.specs.View.{seen};
ghost use Rattle.vdp_sprites.specs.Sprites.{covers, most_chosen};
ghost use Rattle.vdp_sprites.specs.Walks.{IsChosen};

use crate::sprite::{Sprite, covers, most_chosen, most_listed, next_of, sprite_at};
use arrayvec::ArrayVec;
use vdp_planes::Scene;

/// The sprites chosen on a line.
pub type Found = ArrayVec<Sprite, 20>;

/// Takes a sprite where it covers the line; false: there is no room for it.
#[inline(always)]
fn take_one(found: &mut Found, most: usize, y: u32, sprite: Sprite) -> bool
    requires most { most ≤ 20 }
    requires room { length found.old.items ≤ most }
    requires line { y < 240 }
    ensures taken { result ≡ true → found.new.items ≡ found.old.items ++ filter (covers y) (sprite ∷ []) }
    ensures room { length found.new.items ≤ most }
    ensures full { result ≡ false → (found.new.items ≡ found.old.items) × (length found.old.items ≡ most) × (covers y sprite ≡ true) }
{
    if !covers(y, sprite) {
        return true;
    }
    if found.len() == most {
        return false;
    }
    found.push(sprite);
    true
}

/// Writes the sprites chosen on line `y` into an empty list; true: there are more that cover it. It
/// follows the links from sprite 0 on.
#[tactic(auto, using(crate::proofs::Listed::begun, crate::proofs::Listed::goes_on, crate::proofs::Listed::out_of_list))]
pub fn choose(scene: &Scene, y: u32, found: &mut Found) -> bool
    requires line { y < 240 }
    requires none { found.old.items ≡ [] }
    ensures { IsChosen (seen scene.now) y found.new.items result }
{
    let most = most_chosen(scene);
    let mut number = 0;
    for _ in 0..most_listed(scene) {
        let sprite = sprite_at(scene, number);
        if !take_one(found, most, y, sprite) {
            return true;
        }
        match next_of(scene, sprite) {
            Some(next) => number = next,
            None => return false,
        }
    }
    false
}
