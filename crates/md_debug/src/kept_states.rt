ghost use Rattle.std.specs.Prelude.{◌≡◌, ◌-◌, ◌<◌, ◌≤◌, [], ◌∷◌, ◌++◌, length, replicate, take, drop, get_or, IfOk};
ghost use Rattle.page_ring.specs.Kept.{IsPushed};
ghost use Rattle.md_debug.specs.Kept.{all_pages, padded, per_state, state_size};

use md_word::NoMemory;
use page_ring::{PAGE, PageRing};
use std::alloc::Global;
use std::collections::VecDeque;
use std::marker::Model;

/// How many pages there are for all states.
const PAGES: u32 = 16_384;

/// How many pages a state has.
const PER_STATE: u32 = 97;

/// How many states there can be: the oldest takes all of its pages, and each later one at least one.
const MOST_STATES: usize = (PAGES - PER_STATE + 1) as usize;

/// The newest states that fit into 16,384 pages of 4,096 bytes, of which each has 97, with the cycle of
/// each. Contracts see them newest first, and the state that was fetched last.
#[derive(Drop)]
pub struct KeptStates {
    ring: PageRing,
    cycles: VecDeque<u64>,
    /// A state in whole pages, on its way into the ring or out of it.
    pages: Vec<u8>,
}

impl Model for KeptStates {
    ghost use Rattle.std.specs.VecDeque.{deque_capacity};
    ghost use Rattle.md_debug.specs.Kept.{IsKept, KeptValue};

    ghost Value = { KeptValue };

    ghost view = { λ k. record { states = k.ring.states; cycles = k.cycles.items; fetched = k.pages.items } };

    ghost invariant = { λ k. IsKept k.ring k.cycles.items (deque_capacity k.cycles) k.pages.items };
}

/// Puts an image into whole pages, with zeros after it.
fn fill(pages: &mut [u8], image: &[u8])
    requires { length image.now ≤ length pages.old }
    ensures { pages.new ≡ image.now ++ replicate (length pages.old - length image.now) 0 }
{
    let size = image.len();
    pages[..size].copy_from_slice(image);
    pages[size..].fill(0);
}

impl KeptStates {
    /// No states. All memory that they ever need is taken here. It fails only when memory runs out.
    pub fn make(alloc: Global) -> Result<KeptStates, NoMemory>
        ensures { IfOk result (λ kept. (kept.states ≡ []) × (kept.cycles ≡ [])) }
    {
        let ring = PageRing::make(alloc, PAGES, PER_STATE)?;
        let cycles = VecDeque::with_capacity(alloc, MOST_STATES)?;
        let pages = Vec::from_elem(alloc, 0u8, PER_STATE as usize * PAGE)?;
        Ok(KeptStates {
            ring,
            cycles,
            pages,
        })
    }

    /// Keeps a state of this cycle with this image before the others. The oldest ones go that no longer
    /// fit. It is never refused.
    pub fn push(&mut self, cycle: u64, image: &[u8])
        requires { length image.now ≤ state_size }
        ensures states { IsPushed all_pages per_state self.old.states (padded image.now) self.new.states }
        ensures cycles { self.new.cycles ≡ take (length self.new.states) (cycle ∷ self.old.cycles) }
    {
        fill(self.pages.as_mut_slice(), image);
        self.ring.push(self.pages.as_slice());
        let others = self.ring.count() as usize - 1;
        self.cycles.truncate(others);
        self.cycles.push_front_reserved(cycle);
    }

    /// How many there are.
    pub fn count(&self) -> u32
        ensures count { result ≡ length self.now.states }
        ensures cycles { result ≡ length self.now.cycles }
    {
        self.ring.count()
    }

    /// The cycle of the oldest.
    pub fn oldest(&self) -> u64
        requires { 0 < length self.now.states }
        ensures { result ≡ get_or self.now.cycles (length self.now.cycles - 1) 0 }
    {
        match self.cycles.back() {
            Some(cycle) => *cycle,
            None => unreachable!(),
        }
    }

    /// Fetches the state that follows so many newer ones.
    pub fn fetch(&mut self, newer: u32)
        requires { newer < length self.old.states }
        ensures { self.new ≡ record self.old { fetched = get_or self.old.states newer [] } }
    {
        self.ring.state(newer, self.pages.as_mut_slice());
    }

    /// The state that was fetched last, in whole pages.
    pub fn fetched(&self) -> &[u8]
        ensures state { result.now ≡ self.now.fetched }
        ensures size { length result.now ≡ state_size }
    {
        self.pages.as_slice()
    }

    /// Drops the newest states, so many.
    pub fn drop_newest(&mut self, count: u32)
        requires { count ≤ length self.old.states }
        ensures { self.new ≡ record self.old { states = drop count self.old.states; cycles = drop count self.old.cycles } }
    {
        for dropped in 0..count {
            let _dropped = dropped;
            self.ring.drop_newest();
            self.cycles.pop_front();
        }
    }
}
