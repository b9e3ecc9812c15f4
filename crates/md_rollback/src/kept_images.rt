ghost use Rattle.std.specs.Prelude.{◌≡◌, ◌≤◌, ◌<◌, ◌-◌, ◌∷◌, ℕ, All, [], drop, length, take, vec_capacity, IfOk};
ghost use Rattle.std.specs.VecDeque.{deque_capacity};
ghost use Rattle.md_word.specs.Clock.{last_cycle};
ghost use Rattle.save_state.specs.States.{settled_console};
ghost use Rattle.md_rollback.specs.Images.{AreSlots, image_at};

use md_machine::Machine;
use md_word::NoMemory;
use state_laws::Replays;
use std::alloc::Global;
use std::collections::VecDeque;
use std::marker::Model;
use std::mem::swap;

/// The list of an image, and after how many frames the image was kept.
#[derive(Drop)]
struct Slot {
    frames: usize,
    bytes: Vec<u8>,
}

/// The newest images, each in a list of its own with room for so many bytes, with the number of frames after which it
/// was kept. The next one is made in lists that are there already, so that none takes memory. Contracts see the images,
/// newest first.
#[derive(Drop)]
pub struct KeptImages {
    /// The lists of the images, and after them those that keep none: as many as images are kept at most.
    slots: VecDeque<Slot>,
    /// How many images there are.
    count: usize,
    /// The list in which the next image is made.
    next: Vec<u8>,
    /// Room for an image, which is used while one is made.
    apart: Vec<u8>,
    /// How many bytes an image has at most.
    size: usize,
}

impl Model for KeptImages {
    ghost use Rattle.std.specs.Prelude.{◌≤◌, length, map, take, vec_capacity};
    ghost use Rattle.std.specs.VecDeque.{deque_capacity};
    ghost use Rattle.md_rollback.specs.Images.{AreSlots, Kept, image_of};

    ghost Value = { Kept };

    ghost view = { λ k. record { most = length k.slots.items; size = k.size; images = map image_of (take k.count k.slots.items) } };

    ghost invariant = { λ k. AreSlots k.slots.items (deque_capacity k.slots) k.count k.size
        × (k.size ≤ vec_capacity k.next) × (k.size ≤ vec_capacity k.apart) };
}

/// So many empty lists, each with room for an image. It fails only when memory runs out.
fn slots_of(alloc: Global, most: usize, size: usize) -> Result<VecDeque<Slot>, NoMemory>
    requires { 1 ≤ most }
    ensures slots { IfOk result (λ slots. AreSlots slots.items (deque_capacity slots) 0 size) }
    ensures most { IfOk result (λ slots. length slots.items ≡ most) }
{
    let mut slots = VecDeque::with_capacity(alloc, most)?;
    for _number in 0..most {
        let bytes = Vec::with_capacity(alloc, size)?;
        slots.push_back_reserved(Slot { frames: 0, bytes });
    }
    Ok(slots)
}

/// Puts an image in front of the others, in its list, after so many frames. The last list comes in place of the
/// image's.
fn put_front(slots: &mut VecDeque<Slot>, frames: usize, image: &mut Vec<u8>)
    requires some { 1 ≤ length slots.old.items }
    requires placed { length slots.old.items ≤ deque_capacity slots.old }
    ensures slots { slots.new.items ≡ record { frames = frames; bytes = image.old } ∷ take (length slots.old.items - 1) slots.old.items }
    ensures places { deque_capacity slots.old ≤ deque_capacity slots.new }
    ensures room { (size : ℕ) → All (λ slot. size ≤ vec_capacity slot.bytes) slots.old.items → size ≤ vec_capacity image.new }
{
    if let Some(slot) = slots.pop_back() {
        let mut bytes = slot.bytes;
        swap(&mut bytes, image);
        slots.push_front_reserved(Slot { frames, bytes });
    }
}

impl KeptImages {
    /// No images. All memory that they ever need is taken here. It fails only when memory runs out.
    pub fn make(alloc: Global, most: u32, size: usize) -> Result<KeptImages, NoMemory>
        requires some { 1 ≤ most }
        ensures most { IfOk result (λ kept. kept.most ≡ most) }
        ensures size { IfOk result (λ kept. kept.size ≡ size) }
        ensures images { IfOk result (λ kept. kept.images ≡ []) }
    {
        let slots = slots_of(alloc, most as usize, size)?;
        Ok(KeptImages {
            slots,
            count: 0,
            next: Vec::with_capacity(alloc, size)?,
            apart: Vec::with_capacity(alloc, size)?,
            size,
        })
    }

    /// Keeps an image, in its list, after so many frames. The oldest one goes where there were as many as are kept.
    /// Another list comes in place of the image's, for the next one.
    pub fn push(&mut self, frames: usize, image: &mut Vec<u8>)
        requires { self.old.size ≤ vec_capacity image.old }
        ensures kept { self.new ≡ record self.old { images = take self.old.most (record { frames = frames; bytes = image.old.items } ∷ self.old.images) } }
        ensures room { self.old.size ≤ vec_capacity image.new }
    {
        put_front(&mut self.slots, frames, image);
        self.count = (self.count + 1).min(self.slots.len());
    }

    /// Keeps the image of a machine after so many frames. The oldest one goes where there were as many as are kept.
    pub(crate) fn keep<R: Replays>(&mut self, replays: &R, machine: &Machine, frames: usize)
        requires cart { machine.now.console.cart ≡ R.cart replays.now }
        requires cycle { machine.now.at ≤ last_cycle }
        requires size { self.old.size ≡ R.size replays.now }
        ensures kept { self.new ≡ record self.old { images = take self.old.most (record { frames = frames; bytes = R.spelling replays.now machine.now.at (settled_console machine.now.at machine.now.console) } ∷ self.old.images) } }
        ensures own { R.is_ready replays.now machine.now.at machine.now.console → R.is_own replays.now machine.now.at (settled_console machine.now.at machine.now.console) }
    {
        self.next.clear();
        replays.spell(machine, &mut self.apart, &mut self.next);
        put_front(&mut self.slots, frames, &mut self.next);
        self.count = (self.count + 1).min(self.slots.len());
    }

    /// How many images were kept after more than so many frames.
    pub fn newer_than(&self, frames: usize) -> usize
        ensures within { result ≤ length self.now.images }
        ensures newer { (j : ℕ) → j < result → frames < (image_at self.now.images j).frames }
        ensures next { result < length self.now.images → (image_at self.now.images result).frames ≤ frames }
    {
        for newer in 0..self.count {
            if self.frames(newer) <= frames {
                return newer;
            }
        }
        self.count
    }

    /// After how many frames the image was kept that follows so many newer ones.
    pub fn frames(&self, newer: usize) -> usize
        requires { newer < length self.now.images }
        ensures { result ≡ (image_at self.now.images newer).frames }
    {
        self.slots[newer].frames
    }

    /// The image that follows so many newer ones.
    pub fn image(&self, newer: usize) -> &[u8]
        requires { newer < length self.now.images }
        ensures { result.now ≡ (image_at self.now.images newer).bytes }
    {
        &self.slots[newer].bytes
    }

    /// Drops the newest images, so many.
    pub fn drop_newest(&mut self, count: usize)
        requires { count ≤ length self.old.images }
        ensures { self.new ≡ record self.old { images = drop count self.old.images } }
    {
        self.slots.rotate_left(count);
        self.count -= count;
    }
}
