//! Laws of images, as calls that do nothing and stand for what they ensure.

ghost use Rattle.std.specs.Prelude.{◌≡◌, ℕ, ◌≤◌, List};
ghost use Rattle.md_word.specs.Clock.{last_cycle};
ghost use Rattle.md_word.specs.declared.event.Entry.{Entry};
ghost use Rattle.md_chips.specs.Console.{Console, IsRunTo};
ghost use Rattle.md_chips.specs.Machines.{MachineValue};
ghost use Rattle.md_chips.specs.Media.{Media};
ghost use Rattle.state_laws.specs.Images.{HasImage, ImagesValue, Keeps, drained};

use machine_laws::saved;

/// Each machine that a run from one with an image reaches has one too.
pub fn runs_have_images()
    ensures { (images : ImagesValue) (m : MachineValue) (z : Console) (end : ℕ) (entries : List Entry) (output : Media) → HasImage images m → m.at ≤ end → end ≤ last_cycle
        → IsRunTo m.console end z entries output → HasImage images (drained end z) }
{
    saved::runs_reach();
}

/// Bytes keep one machine alone.
pub fn images_keep_one_machine()
    ensures { (images : ImagesValue) (bytes : List ℕ) (a b : MachineValue) → Keeps images bytes a → Keeps images bytes b → a ≡ b }
{}
