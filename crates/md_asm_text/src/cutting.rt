ghost use Rattle.std.specs.Prelude.{◌≡◌, ◌≤◌, ◌+◌, length, take, drop, nat_lt};
ghost use Rattle.md_asm_text.specs.Texts as meaning;

/// The count of characters before the first one like this; of all of them without one.
#[tactic(auto, unfolding(crate::specs::Texts::before, crate::specs::Texts::following, crate::specs::Texts::has))]
fn index_of(text: &[u8], mark: u8) -> usize
    ensures within { result ≤ length text.now }
    ensures before { take result text.now ≡ meaning.before mark text.now }
    ensures following { drop (result + 1) text.now ≡ meaning.following mark text.now }
    ensures found { nat_lt result (length text.now) ≡ meaning.has mark text.now }
{
    for (i, c) in text.iter().enumerate() {
        if *c == mark {
            return i;
        }
    }
    text.len()
}

/// Whether a text has such a character.
pub(crate) fn has(text: &[u8], mark: u8) -> bool
    ensures { result ≡ meaning.has mark text.now }
{
    index_of(text, mark) < text.len()
}

/// The text before the first such character; the whole text without one.
pub(crate) fn before(text: &[u8], mark: u8) -> &[u8]
    ensures { result.now ≡ meaning.before mark text.now }
{
    let count = index_of(text, mark);
    &text[..count]
}

/// The text after the first such character; the empty text without one.
pub(crate) fn following(text: &[u8], mark: u8) -> &[u8]
    ensures { result.now ≡ meaning.following mark text.now }
{
    let count = index_of(text, mark);
    if count < text.len() {
        &text[count + 1..]
    } else {
        &text[count..]
    }
}
