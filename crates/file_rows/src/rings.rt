// Rings of states of two pages, of which each is full of one letter.
ghost use Rattle.std.specs.Prelude.{◌≡◌, ◌≤◌};

use page_ring::{PAGE, PageRing};
use row_lines::{RowError, number, parted};
use std::alloc::Global;

/// The most states that are reported.
const MOST: u32 = 64;

/// A state of two pages.
fn state_of(letters: [u8; 2]) -> [u8; 8192] {
    let mut state = [letters[0]; 8192];
    state[PAGE..].fill(letters[1]);
    state
}

/// Pushes a state of two letters, or with `--` drops the newest one, which is dropped exactly where one was kept.
fn keep(ring: &mut PageRing, word: &str) -> Result<(), RowError>
    requires { ring.old.per_state ≡ 2 }
    ensures { ring.new.per_state ≡ 2 }
{
    match word.as_bytes() {
        b"--" => {
            let is_empty = ring.count() == 0;
            if ring.drop_newest() == is_empty {
                return Err(RowError::NoSuchName);
            }
            Ok(())
        }
        [first, second] => {
            ring.push(&state_of([*first, *second]));
            Ok(())
        }
        _ => Err(RowError::NoSuchLine),
    }
}

/// Does all of it, one after another.
fn keep_all(ring: &mut PageRing, words: &str) -> Result<(), RowError>
    requires { ring.old.per_state ≡ 2 }
    ensures { ring.new.per_state ≡ 2 }
{
    for word in words.split_whitespace() {
        keep(ring, word)?;
    }
    Ok(())
}

/// Adds the letters of a state, or `??` where a page is not full of one.
fn tell(text: &mut String, state: &[u8; 8192]) -> Result<(), RowError> {
    let letters = [state[0], state[PAGE]];
    let is_full = *state == state_of(letters);
    if !text.is_empty() {
        text.push(' ')?;
    }
    for letter in letters {
        text.push(if is_full { char::from(letter) } else { '?' })?;
    }
    Ok(())
}

/// The states that a ring keeps, the newest first, or `none`; and after them `..` where their number is another.
fn reported(alloc: Global, ring: &PageRing) -> Result<String, RowError>
    requires { ring.now.per_state ≡ 2 }
{
    let mut text = String::new(alloc);
    let mut into = [0; 8192];
    let mut kept = 0u32;
    for back in 0..MOST {
        if ring.state(back, &mut into) {
            tell(&mut text, &into)?;
            kept = kept.wrapping_add(1);
        }
    }
    if kept == 0 {
        text.push_str("none")?;
    }
    if ring.count() != kept {
        text.push_str(" ..")?;
    }
    Ok(text)
}

/// The states that a ring of so many pages keeps, the newest first, after all of `PAGES STATE ..`.
pub(crate) fn kept(alloc: Global, text: &str) -> Result<String, RowError> {
    let (pages, words) = parted(text, ' ')?;
    let pages = number(pages)?;
    if pages < 2 || pages > 65536 {
        return Err(RowError::NoSuchLine);
    }
    match PageRing::make(alloc, pages as u32, 2) {
        Ok(mut ring) => {
            keep_all(&mut ring, words)?;
            reported(alloc, &ring)
        }
        Err(_) => Err(RowError::Memory),
    }
}
