ghost use Rattle.std.specs.Prelude.{◌≡◌, ◌≢◌, ℕ, ◌<◌, ◌≤◌, ◌↔◌, true, All, IsTrue, MatchOption, length, if◌then◌else◌, ◌&&◌};
ghost use Rattle.md_word.specs.Keys.{key_lt};
ghost use Rattle.chip_core.specs.Cores.{bound_in, chip_in, key_in};
ghost use Rattle.chip_core.specs.Looks.{or_else, least_lagging, FindsOther, IsBelowOthers, IsBelowWriters, IsFirst, IsFreeTo, IsLastFree, IsLeastLimit, IsLimit, LooksAt};
ghost use Rattle.chip_core.specs.Machines.{least_below};
ghost use Rattle.chip_core.specs.Resting.{AreOthersLate, IsFirstOther};

use crate::{ChipSet, Event};
use md_word::{Key, Next};

/// What a look at all chips finds.
#[derive(Clone, Copy)]
pub(crate) struct Found {
    /// The least number whose bound is below its chip's key.
    pub(crate) lagging: Option<u8>,
    /// The least of the next events.
    pub(crate) least: Next,
}

/// These are chips that can occur.
pub(crate) fn know_chips<C: ChipSet>(chips: &[C::Chip])
    ensures { All C.chip_ok chips.now }
{
    for chip in chips {
        let _next = C::next(chip);
    }
}

/// Whether a key is below each bound but that of one number.
pub(crate) fn is_below_others(key: &Key, bounds: &[Key], chip: usize) -> bool
    ensures { IsTrue result ↔ IsBelowOthers key.now bounds.now chip }
{
    for (i, bound) in bounds.iter().enumerate() {
        if i != chip && !key.is_below(bound) {
            return false;
        }
    }
    true
}

/// Whether a key is below the bound of each other chip that writes the pins of one.
pub(crate) fn is_below_writers<C: ChipSet>(key: &Key, bounds: &[Key], chip: u8) -> bool
    requires few { length bounds.now ≤ 5 }
    ensures { IsTrue result ↔ IsBelowWriters C.rules key.now bounds.now chip }
{
    for i in 0..bounds.len() {
        if is_other_writer::<C>(i as u8, chip) && !key.is_below(&bounds[i]) {
            return false;
        }
    }
    true
}

/// Whether chip `i` is another than `chip` and writes its pins.
#[inline(always)]
fn is_other_writer<C: ChipSet>(i: u8, chip: u8) -> bool
    ensures { IsTrue result ↔ ((i ≢ chip) × (C.rules.writes i chip ≡ true)) }
{
    i != chip && C::writes(i, chip)
}

/// Takes the lesser of two keys, where a test holds.
#[inline(always)]
fn lower(end: &mut Key, key: &Key, counts: bool)
    ensures { end.new ≡ (if counts && key_lt key.now end.old then key.now else end.old) }
{
    if counts && key.is_below(end) {
        end.cycle = key.cycle;
        end.chip = key.chip;
    }
}

/// The key below which a chip may sample its pins up to cycle `t`: the least of the first key at that
/// cycle and of the bounds of the other chips that write its pins.
#[inline(always)]
pub fn limit_of<C: ChipSet>(bounds: &[Key], t: u64, chip: u8) -> Key
    requires count { length bounds.now ≡ C.rules.count }
    ensures limit { IsLimit C.rules t (bound_in bounds.now) (length bounds.now) chip result }
    ensures least { IsLeastLimit C.rules t (bound_in bounds.now) (length bounds.now) chip result }
{
    let mut end = Key { cycle: t, chip: 0 };
    for i in 0..C::count() {
        lower(&mut end, &bounds[i as usize], is_other_writer::<C>(i, chip));
    }
    end
}

/// Whether the next event of chip `number` looks at the bound of chip `i`: an access at those of all others, a
/// sample at those of the others that write its pins.
fn looks_at<C: ChipSet>(next: &Next, i: u8, number: u8) -> bool
    ensures { IsTrue result ↔ LooksAt C.rules next.now number i }
{
    if i == number {
        return false;
    }
    if next.sample {
        return C::writes(i, number);
    }
    true
}

/// The first number at whose bound the event looks, and whose bound its key is not below; none where the
/// key is below all these bounds.
pub fn find_other<C: ChipSet>(next: &Next, bounds: &[Key], number: u8) -> Option<u8>
    requires few { length bounds.now ≤ 5 }
    ensures { MatchOption result (IsFirst C.rules next.now bounds.now number) (λ other. FindsOther C.rules next.now bounds.now number other) }
{
    for (i, bound) in bounds.iter().enumerate() {
        if looks_at::<C>(next, i as u8, number) && !next.key.is_below(bound) {
            return Some(i as u8);
        }
    }
    None
}

/// Whether some chip's next event lies below a cycle.
pub(crate) fn is_any_short<C: ChipSet>(chips: &[C::Chip], t: u64) -> bool
    ensures { IsTrue result ↔ ((i : ℕ) × (i < length chips.now) × ((key_in C.rules chips.now i).cycle < t)) }
{
    for chip in chips {
        if C::next(chip).key.cycle < t {
            return true;
        }
    }
    false
}

fn first_of(found: Option<u8>, chip: u8, lags: bool) -> Option<u8>
    ensures { result ≡ or_else found (if lags then Some chip else None) }
{
    match found {
        Some(first) => Some(first),
        None => if lags { Some(chip) } else { None },
    }
}

/// Takes the lesser of two next events. Field by field: their padding is not copied.
fn take_lesser(least: &mut Next, next: &Next)
    ensures { least.new ≡ (if key_lt next.now.key least.old.key then next.now else least.old) }
{
    if next.key.is_below(&least.key) {
        least.key.cycle = next.key.cycle;
        least.key.chip = next.key.chip;
        least.sample = next.sample;
    }
}

/// Looks once at each chip and its bound.
pub(crate) fn look<C: ChipSet>(chips: &[C::Chip], bounds: &[Key]) -> Found
    requires some { 1 ≤ length chips.now }
    requires few { length chips.now ≤ 5 }
    requires bounds { length bounds.now ≡ length chips.now }
    ensures lagging { result.lagging ≡ least_lagging (bound_in bounds.now) (key_in C.rules chips.now) (length chips.now) }
    ensures least { result.least
        ≡ C.rules.next (chip_in C.rules chips.now (least_below (key_in C.rules chips.now) (length chips.now))) }
{
    let mut least = C::next(&chips[0]);
    let mut lagging = first_of(None, 0, bounds[0].is_below(&least.key));
    for i in 1..chips.len() {
        let next = C::next(&chips[i]);
        lagging = first_of(lagging, i as u8, bounds[i].is_below(&next.key));
        take_lesser(&mut least, &next);
    }
    Found { lagging, least }
}

/// The number of the least of several bounds, each of which has the number of its place: of those of one cycle
/// the first is the least.
#[inline(always)]
pub fn least_of<C: ChipSet>(bounds: &[Key]) -> u8
    requires some { 1 ≤ C.rules.count }
    requires count { length bounds.now ≡ C.rules.count }
    requires number { (i : ℕ) → i < length bounds.now → (bound_in bounds.now i).chip ≡ i }
    ensures value { result ≡ least_below (bound_in bounds.now) (length bounds.now) }
    ensures inside { result < length bounds.now }
{
    let mut least = 0;
    let mut cycle = bounds[0].cycle;
    for i in 1..C::count() {
        let next = bounds[i as usize].cycle;
        if next < cycle {
            cycle = next;
            least = i;
        }
    }
    least
}

/// The number of the first of several bounds but for one chip's, where it lies below cycle `t`; each bound has
/// the number of its place.
#[inline(always)]
pub(crate) fn first_other<C: ChipSet>(bounds: &[Key], t: u64, but: u8) -> Option<u8>
    requires count { length bounds.now ≡ C.rules.count }
    requires number { (i : ℕ) → i < length bounds.now → (bound_in bounds.now i).chip ≡ i }
    ensures { MatchOption result (AreOthersLate t (bound_in bounds.now) (length bounds.now) but)
        (λ i. IsFirstOther t (bound_in bounds.now) (length bounds.now) but i) }
{
    let mut first = None;
    let mut cycle = t;
    for number in 0..C::count() {
        let next = bounds[number as usize].cycle;
        if number != but && next < cycle {
            cycle = next;
            first = Some(number);
        }
    }
    first
}

/// Whether a number is another than both.
#[inline(always)]
fn is_neither(number: u8, chip: u8, sleeper: u8) -> bool
    ensures { IsTrue result ↔ ((number ≢ chip) × (number ≢ sleeper)) }
{
    number != chip && number != sleeper
}

/// The key below which a chip may go on up to cycle `t` while another sleeps: the least of the first key at that
/// cycle and of the bounds of the others.
#[inline(always)]
pub(crate) fn free_to<C: ChipSet>(bounds: &[Key], t: u64, chip: u8, sleeper: u8) -> Key
    requires count { length bounds.now ≡ C.rules.count }
    ensures free { IsFreeTo t (bound_in bounds.now) (length bounds.now) chip sleeper result }
    ensures last { IsLastFree t (bound_in bounds.now) (length bounds.now) chip sleeper result }
{
    let mut end = Key { cycle: t, chip: 0 };
    for number in 0..C::count() {
        lower(
            &mut end,
            &bounds[number as usize],
            is_neither(number, chip, sleeper),
        );
    }
    end
}

/// The move that a next event is.
pub(crate) fn event_of(next: &Next) -> Event
    ensures { result ≡ (if next.now.sample then Event.Sample next.now.key.chip else Event.Perform next.now.key.chip) }
{
    if next.sample {
        Event::Sample(next.key.chip)
    } else {
        Event::Perform(next.key.chip)
    }
}
