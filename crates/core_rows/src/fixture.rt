ghost use Rattle.std.specs.Prelude.{◌≡◌, ◌<◌, [], length, vec_capacity};

use crate::events::{event_of, event_text, events_of};
use crate::records::{keys_text, record_text};
use chip_core::{ChipSet, Core, Event};
use md_word::Entry;
use row_lines::{RowError, byte, first_word, number, parted, place_of};
use std::alloc::{AllocError, Global};

/// The greatest cycle below which a core looks for events.
const MOST: u64 = 1 << 50;

/// A core that rows ask, where one was begun.
#[derive(Drop)]
pub struct CoreFixture<C: ChipSet> {
    core: Option<Core<C>>,
}

/// The core with this journal in the place of its own.
fn with_journal<C: ChipSet>(core: Core<C>, journal: Vec<Entry>) -> Core<C>
    ensures journal { result.journal ≡ journal.items }
    ensures room { result.room ≡ vec_capacity journal }
{
    let (shared, chips, bounds, _old) = core.into_parts();
    Core::make(shared, chips, bounds, journal)
}

/// The core, and the text of its bounds.
fn reported_bounds<C: ChipSet>(
    alloc: Global,
    core: Core<C>,
) -> (Core<C>, Result<String, AllocError>) {
    let (shared, chips, bounds, journal) = core.into_parts();
    let text = keys_text(alloc, &bounds);
    (Core::make(shared, chips, bounds, journal), text)
}

/// Makes one event where it is enabled, and answers whether it is.
fn act<C: ChipSet>(core: &mut Core<C>, event: Event) -> bool
    requires { length core.old.journal < core.old.room }
{
    if !core.enabled(MOST, event) {
        return false;
    }
    match event {
        Event::Announce(chip) => core.announce(chip),
        Event::Perform(chip) => core.perform(chip),
        Event::Sample(chip) => core.sample(chip),
    }
    true
}

/// A number, and what comes after it.
fn front_of(text: &str) -> Result<(u64, &str), RowError> {
    let (front, rest) = first_word(text);
    Ok((number(front)?, rest))
}

/// `yes` or `no`.
fn yes_or_no(alloc: Global, is_so: bool) -> Result<String, RowError> {
    Ok(String::from_str(alloc, if is_so { "yes" } else { "no" })?)
}

/// Whether a chip writes the pins of another.
fn writes<C: ChipSet>(alloc: Global, text: &str) -> Result<String, RowError> {
    let (writer, chip) = parted(text, ' ')?;
    let (writer, chip) = (byte(writer)?, byte(chip)?);
    yes_or_no(alloc, C::writes(writer, chip))
}

impl<C: ChipSet> CoreFixture<C> {
    /// With no core.
    pub fn new() -> CoreFixture<C> {
        CoreFixture { core: None }
    }

    /// Whether there is a core.
    pub fn is_begun(&self) -> bool {
        self.core.is_some()
    }

    /// Takes a core in the place of the one before.
    pub fn begin(&mut self, core: Core<C>) {
        self.core = Some(core);
    }

    /// The core.
    pub fn core(&self) -> Result<&Core<C>, RowError> {
        self.core.as_ref().ok_or(RowError::NoSuchName)
    }

    /// What is answered where a core is asked this.
    ///
    /// `events T E, E` is how many events of a list happen below a cycle. `do E` is whether an event is enabled, which
    /// then is made by its own call; `enabled T E` is that alone. `next T` is the event that the core chooses, and
    /// `short T` whether an event lies below a cycle. `bounds` are the bounds. `journal` is the number of entries of
    /// the last events, and `journal K` one of them. `writes I J` is whether a chip writes another's pins, and
    /// `count` the number of chips. It fails where the text is no such question, or when memory is out.
    pub fn ask(&mut self, alloc: Global, asked: &str) -> Result<String, RowError> {
        let (verb, rest) = first_word(asked);
        match verb {
            "events" => self.happen(alloc, rest),
            "do" => self.make_one(alloc, rest),
            "enabled" => self.is_enabled(alloc, rest),
            "next" => self.next(alloc, rest),
            "short" => self.is_short(alloc, rest),
            "bounds" => self.bounds(alloc),
            "journal" => self.journal(alloc, rest),
            "writes" => writes::<C>(alloc, rest),
            "count" => Ok(format!(in alloc; "{}", C::count())?),
            _ => Err(RowError::NoSuchLine),
        }
    }

    /// How many events of a list happen below a cycle.
    fn run(&mut self, alloc: Global, t: u64, list: &[Event]) -> Result<usize, RowError> {
        if t > MOST {
            return Err(RowError::NoSuchLine);
        }
        let journal = Vec::with_capacity(alloc, list.len())?;
        match self.core.take() {
            Some(core) => {
                let mut core = with_journal(core, journal);
                let count = core.run_events(t, list);
                self.core = Some(core);
                Ok(count)
            }
            None => Err(RowError::NoSuchName),
        }
    }

    /// Whether an event is enabled, which then is made.
    fn act(&mut self, alloc: Global, event: Event) -> Result<bool, RowError> {
        let journal = Vec::with_capacity(alloc, 1)?;
        match self.core.take() {
            Some(core) => {
                let mut core = with_journal(core, journal);
                let is_made = act(&mut core, event);
                self.core = Some(core);
                Ok(is_made)
            }
            None => Err(RowError::NoSuchName),
        }
    }

    fn happen(&mut self, alloc: Global, text: &str) -> Result<String, RowError> {
        let (t, list) = front_of(text)?;
        let list = events_of(alloc, list)?;
        let count = self.run(alloc, t, &list)?;
        Ok(format!(in alloc; "{count}")?)
    }

    fn make_one(&mut self, alloc: Global, text: &str) -> Result<String, RowError> {
        let event = event_of(text)?;
        let is_made = self.act(alloc, event)?;
        yes_or_no(alloc, is_made)
    }

    fn is_enabled(&self, alloc: Global, text: &str) -> Result<String, RowError> {
        let (t, event) = front_of(text)?;
        let is_enabled = self.core()?.enabled(t, event_of(event)?);
        yes_or_no(alloc, is_enabled)
    }

    fn next(&self, alloc: Global, text: &str) -> Result<String, RowError> {
        let (t, _) = front_of(text)?;
        Ok(match self.core()?.some_enabled(t) {
            Some(event) => event_text(alloc, event)?,
            None => String::from_str(alloc, "none")?,
        })
    }

    fn is_short(&self, alloc: Global, text: &str) -> Result<String, RowError> {
        let (t, _) = front_of(text)?;
        yes_or_no(alloc, self.core()?.is_short(t))
    }

    fn bounds(&mut self, alloc: Global) -> Result<String, RowError> {
        match self.core.take() {
            Some(core) => {
                let (core, text) = reported_bounds(alloc, core);
                self.core = Some(core);
                Ok(text?)
            }
            None => Err(RowError::NoSuchName),
        }
    }

    fn journal(&self, alloc: Global, text: &str) -> Result<String, RowError> {
        let journal = self.core()?.journal();
        if text.is_empty() {
            return Ok(format!(in alloc; "{}", journal.len())?);
        }
        match journal.get(place_of(text)?) {
            Some(entry) => Ok(record_text(alloc, entry)?),
            None => Err(RowError::NoSuchName),
        }
    }
}
