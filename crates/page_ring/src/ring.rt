//! The newest states that fit.
ghost use Rattle.std.specs.Prelude.{◌≡◌, ℕ, ◌+◌, ◌-◌, ◌*◌, ◌<◌, ◌≤◌, ◌^◌, ◌↔◌, [], ◌∷◌, ◌++◌, max, false, true, not, length, take, drop, get_or, bytes_eq, IfOk, IsTrue, IsFalse};
ghost use Rattle.page_ring.specs.Kept.{IsPushed, cost, page_at};
ghost use Rattle.page_ring.specs.Rings.{IsShared, AreWhole, AreChanges, MakesRoom, fresh, moved, trues};
ghost use Rattle.page_ring.specs.Shelves.{Row, item_at, numbers_of, bytes_of};

use crate::block::PAGE;
use crate::shelf::Shelf;
use md_word::NoMemory;
use std::alloc::Global;
use std::marker::Model;

/// The most pages of a state.
const MOST: usize = 256;

/// The newest states, as many as their cost in pages allows: the oldest costs all of its pages, each
/// later one those that differ from the state before, and one page where none does.
#[derive(Drop)]
pub struct PageRing {
    shelf: Shelf,
    per_state: usize,
    count: usize,
    /// The cost of all states.
    spent: usize,
}

impl Model for PageRing {
    ghost use Rattle.std.specs.Prelude.{◌*◌};
    ghost use Rattle.page_ring.specs.Kept.{Ring};
    ghost use Rattle.page_ring.specs.Rings.{IsRing, states_of};
    ghost use Rattle.page_ring.specs.Shelves.{bytes_of};

    ghost Value = { Ring };

    ghost view = { λ r. record { pages = r.shelf.pages; per_state = r.per_state; states = states_of r.count (r.per_state * 4096) (bytes_of r.shelf.items) } };

    ghost invariant = { λ r. IsRing r.shelf.pages r.shelf.room r.shelf.items r.per_state r.count r.spent };
}

/// The page at a place of a state.
fn page_of_state(state: &[u8], place: usize) -> &[u8; PAGE]
    requires { (place + 1) * 4096 ≤ length state.now }
    ensures { result.now ≡ page_at state.now place }
{
    let start = place * PAGE;
    match state[start..start + PAGE].as_array::<PAGE>() {
        Some(page) => page,
        None => unreachable!(),
    }
}

/// Whether two pages have other bytes. It looks at all of them, so that many can be done at once.
fn differ(a: &[u8; PAGE], b: &[u8; PAGE]) -> bool
    ensures { result ≡ not (bytes_eq a.now b.now) }
{
    let mut is_same = true;
    for index in 0..PAGE {
        is_same &= a[index] == b[index];
    }
    !is_same
}

/// Notes for each place whether its page is another one than that of the newest state, and returns at
/// how many places it is.
fn compare(shelf: &Shelf, per_state: usize, state: &[u8], changed: &mut [bool; MOST]) -> usize
    requires sizes { (per_state ≤ 256) × (per_state ≤ length shelf.now.items) × (length state.now ≡ per_state * 4096) }
    requires whole { AreWhole shelf.now.items }
    ensures count { result ≡ trues per_state changed.new }
    ensures changes { AreChanges per_state state.now (bytes_of shelf.now.items) changed.new }
{
    let mut count = 0;
    for place in 0..per_state {
        let is_changed = differ(page_of_state(state, place), shelf.bytes(place));
        changed[place] = is_changed;
        if is_changed {
            count += 1;
        }
    }
    count
}

/// At how many places the state that begins at `at` has another page than the one before it.
fn moved_at(shelf: &Shelf, per_state: usize, at: usize) -> usize
    requires { (per_state ≤ 256) × (at + per_state + per_state ≤ length shelf.now.items) × (length shelf.now.items < 2 ^ 32) }
    ensures { result ≡ moved per_state per_state (drop at (numbers_of shelf.now.items)) }
{
    let mut count = 0;
    for place in 0..per_state {
        if shelf.number(at + place) != shelf.number(at + per_state + place) {
            count += 1;
        }
    }
    count
}

/// Takes the last `pages` pages of the row away.
fn drop_last(shelf: &mut Shelf, pages: usize)
    requires { pages ≤ length shelf.old.items }
    ensures { shelf.new ≡ record shelf.old { items = take (length shelf.old.items - pages) shelf.old.items } }
{
    let mut left = pages;
    while left > 0 {
        shelf.pop_back();
        left -= 1;
    }
}

/// Takes the first `pages` pages of the row away.
fn drop_first(shelf: &mut Shelf, pages: usize)
    requires { pages ≤ length shelf.old.items }
    ensures { shelf.new ≡ record shelf.old { items = drop pages shelf.old.items } }
{
    let mut left = pages;
    while left > 0 {
        shelf.pop_front();
        left -= 1;
    }
}

/// Puts a state before the others: new pages where it has changed, and else those of the newest state.
fn put_state(shelf: &mut Shelf, per_state: usize, state: &[u8], changed: &[bool; MOST])
    requires sizes { (1 ≤ per_state) × (per_state ≤ 256) × (length state.now ≡ per_state * 4096) }
    requires room { (length shelf.old.items + per_state ≤ shelf.old.room) × (shelf.old.room < 2 ^ 32) }
    requires changes { AreChanges per_state state.now (bytes_of shelf.old.items) changed.now }
    requires pages { fresh per_state (numbers_of shelf.old.items) + trues per_state changed.now ≤ shelf.old.pages }
    requires shared { IsShared per_state shelf.old.items }
    requires whole { AreWhole shelf.old.items }
    ensures stays { (shelf.new.pages ≡ shelf.old.pages) × (shelf.new.room ≡ shelf.old.room) }
    ensures length { length shelf.new.items ≡ per_state + length shelf.old.items }
    ensures bytes { bytes_of shelf.new.items ≡ state.now ++ bytes_of shelf.old.items }
    ensures shared { IsShared per_state shelf.new.items }
    ensures whole { AreWhole shelf.new.items }
{
    let mut place = per_state;
    while place > 0 {
        place -= 1;
        if changed[place] {
            shelf.put(*page_of_state(state, place));
        } else {
            shelf.share(per_state - 1);
        }
    }
}

impl PageRing {
    /// A ring over `pages` pages, which takes its memory here, for states of `per_state` pages. It fails
    /// only when memory is out.
    pub fn make(alloc: Global, pages: u32, per_state: u32) -> Result<PageRing, NoMemory>
        requires { (1 ≤ per_state) × (per_state ≤ pages) × (pages ≤ 65536) × (per_state ≤ 256) }
        ensures { IfOk result (λ ring. (ring.pages ≡ pages) × (ring.per_state ≡ per_state) × (ring.states ≡ [])) }
    {
        let per_state = per_state as usize;
        let pages = pages as usize;
        let shelf = Shelf::make(alloc, pages, (pages - per_state + 1) * per_state)?;
        Ok(PageRing {
            shelf,
            per_state,
            count: 0,
            spent: 0,
        })
    }

    /// How many states are kept.
    pub fn count(&self) -> u32
        ensures { result ≡ length self.now.states }
    {
        self.count as u32
    }

    /// Drops the oldest state.
    fn drop_oldest(&mut self)
        requires { 0 < length self.old.states }
        ensures sizes { (self.new.pages ≡ self.old.pages) × (self.new.per_state ≡ self.old.per_state) }
        ensures states { self.new.states ≡ take (length self.old.states - 1) self.old.states }
    {
        let step = if self.count == 1 {
            self.per_state
        } else {
            let last_two = (self.count - 2) * self.per_state;
            moved_at(&self.shelf, self.per_state, last_two).max(1)
        };
        drop_last(&mut self.shelf, self.per_state);
        self.count -= 1;
        self.spent -= step;
    }

    /// Drops the oldest states until one fits that costs so many pages more.
    fn make_room(&mut self, more: usize)
        requires { more ≤ 256 }
        ensures sizes { (self.new.pages ≡ self.old.pages) × (self.new.per_state ≡ self.old.per_state) }
        ensures states { MakesRoom self.old.pages self.old.per_state more self.old.states self.new.states }
    {
        while self.count > 0 && self.spent + more > self.shelf.pages() {
            self.drop_oldest();
        }
    }

    /// Puts a state before the others, which costs so many pages more.
    fn put(&mut self, state: &[u8], changed: &[bool; MOST], more: usize)
        requires size { length state.now ≡ self.old.per_state * 4096 }
        requires changes { AreChanges self.old.per_state state.now (get_or self.old.states 0 []) changed.now }
        requires more { more + cost self.old.per_state self.old.states ≡ cost self.old.per_state (state.now ∷ self.old.states) }
        requires fits { cost self.old.per_state (state.now ∷ self.old.states) ≤ self.old.pages }
        ensures sizes { (self.new.pages ≡ self.old.pages) × (self.new.per_state ≡ self.old.per_state) }
        ensures states { self.new.states ≡ state.now ∷ self.old.states }
    {
        put_state(&mut self.shelf, self.per_state, state, changed);
        self.count += 1;
        self.spent += more;
    }

    /// Keeps a state, and drops the oldest ones that no longer fit.
    pub fn push(&mut self, state: &[u8])
        requires { length state.now ≡ self.old.per_state * 4096 }
        ensures sizes { (self.new.pages ≡ self.old.pages) × (self.new.per_state ≡ self.old.per_state) }
        ensures states { IsPushed self.old.pages self.old.per_state self.old.states state.now self.new.states }
        ensures enough { (n : ℕ) → n ≤ length self.old.states + 1 → n * self.old.per_state ≤ self.old.pages → n ≤ length self.new.states }
    {
        if self.count > 0 {
            let mut changed = [true; MOST];
            let step = compare(&self.shelf, self.per_state, state, &mut changed).max(1);
            self.make_room(step);
            if self.count > 0 {
                self.put(state, &changed, step);
                return;
            }
        }
        let per_state = self.per_state;
        let all = [true; MOST];
        self.put(state, &all, per_state);
    }

    /// The state `back` pushes before the newest one.
    pub fn state(&self, back: u32, into: &mut [u8]) -> bool
        requires { length into.old ≡ self.now.per_state * 4096 }
        ensures kept { IsTrue result ↔ (back < length self.now.states) }
        ensures state { IsTrue result → into.new ≡ get_or self.now.states back [] }
        ensures none { IsFalse result → into.new ≡ into.old }
    {
        if back as usize >= self.count {
            return false;
        }
        let first = back as usize * self.per_state;
        for place in 0..self.per_state {
            let start = place * PAGE;
            into[start..start + PAGE].copy_from_slice(self.shelf.bytes(first + place));
        }
        true
    }

    /// Drops the newest state.
    pub fn drop_newest(&mut self) -> bool
        ensures sizes { (self.new.pages ≡ self.old.pages) × (self.new.per_state ≡ self.old.per_state) }
        ensures dropped { IsTrue result ↔ (0 < length self.old.states) }
        ensures states { self.new.states ≡ drop 1 self.old.states }
    {
        if self.count == 0 {
            return false;
        }
        let step = if self.count == 1 {
            self.per_state
        } else {
            moved_at(&self.shelf, self.per_state, 0).max(1)
        };
        drop_first(&mut self.shelf, self.per_state);
        self.count -= 1;
        self.spent -= step;
        true
    }
}
