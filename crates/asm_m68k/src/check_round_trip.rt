ghost use Rattle.std.specs.Prelude.{◌≡◌, ◌<◌, ◌↔◌, map, length, IfOk, IfSome, IfNone, IsTrue};
ghost use Rattle.m68k_decode.specs.Instructions.{instruction_of};
ghost use Rattle.asm_m68k.specs.Coded.{IsCoded};
ghost use Rattle.md_disasm.specs.Texts68.{text_of};
ghost use Rattle.md_asm_text.specs.Tokens as texts;
ghost use Rattle.md_asm_text.specs.Shown.{shown};
ghost use Rattle.asm_m68k.specs.Building as building;
ghost use Rattle.asm_m68k.specs.Checked as checked;
ghost use Rattle.asm_m68k.specs.Reading as reading;

use crate::building::built;
use crate::stems::mnemonic_of;
use crate::{encode, read};
use arrayvec::ArrayVec;
use m68k_decode::{Op, decode};
use md_asm_text::{Token, same, split};
use md_disasm::text68;
use md_word::{NoMemory, Size};
use std::alloc::Global;

/// One to five words, with words of 0 after them up to five.
fn padded(words: &[u16]) -> [u16; 5]
    ensures { result ≡ checked.padded words.now }
{
    match words {
        [] => [0, 0, 0, 0, 0],
        [a] => [*a, 0, 0, 0, 0],
        [a, b] => [*a, *b, 0, 0, 0],
        [a, b, c] => [*a, *b, *c, 0, 0],
        [a, b, c, d] => [*a, *b, *c, *d, 0],
        [a, b, c, d, e, ..] => [*a, *b, *c, *d, *e],
    }
}

/// The instruction that is read of tokens, whatever they are; the round-trip check decides whether it is theirs.
#[tactic(auto, unfolding(crate::specs::Building::meant))]
fn meant(tokens: &[Token<'_>], at: u32) -> Op
    ensures value { result ≡ building.meant (reading.read_source (map shown tokens.now)) at }
    ensures coded { IsCoded result }
{
    let source = read(tokens);
    let size = source.size.unwrap_or(Size::Long);
    built(
        mnemonic_of(source.mnemonic),
        size,
        source.first,
        source.second,
        at,
    )
}

/// The round-trip check: whether words decode to an instruction whose text at an address has these tokens. It fails where
/// memory runs out.
fn is_round_trip(
    alloc: Global,
    words: &[u16],
    tokens: &[Token<'_>],
    at: u32,
) -> Result<bool, NoMemory>
    ensures { IfOk result (λ line_tokens. IsTrue line_tokens ↔ (texts.tokens (text_of (instruction_of (checked.padded words.now)) at) ≡ map shown tokens.now)) }
{
    let decoded = decode(&padded(words));
    let text = text68(alloc, &decoded, at)?;
    let own = split(alloc, text.as_bytes())?;
    Ok(same(&own, tokens))
}

/// The one to five words of an instruction that is written, at an address, or `None` where its tokens are those of no
/// instruction's text there. It fails where memory runs out.
pub fn words_of(
    alloc: Global,
    tokens: &[Token<'_>],
    at: u32,
) -> Result<Option<ArrayVec<u16, 5>>, NoMemory>
    ensures some { IfOk result (λ found. IfSome found (λ words. words.items ≡ checked.tried (map shown tokens.now) at)) }
    ensures round_trips { IfOk result (λ found. IfSome found (λ words. texts.tokens (text_of (instruction_of (checked.padded words.items)) at) ≡ map shown tokens.now)) }
    ensures none { IfOk result (λ found. IfNone found (texts.tokens (text_of (instruction_of (checked.padded (checked.tried (map shown tokens.now) at))) at) ≡ map shown tokens.now → ⊥)) }
{
    let words = encode(&meant(tokens, at));
    if is_round_trip(alloc, words.as_slice(), tokens, at)? {
        Ok(Some(words))
    } else {
        Ok(None)
    }
}
