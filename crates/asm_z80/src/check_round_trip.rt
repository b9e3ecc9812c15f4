ghost use Rattle.std.specs.Prelude.{◌≡◌, ◌↔◌, map, IfOk, IfSome, IfNone, IsTrue};
ghost use Rattle.z80_decode.specs.Instructions.{instruction_of};
ghost use Rattle.md_disasm.specs.Texts80.{text_of};
ghost use Rattle.md_asm_text.specs.Tokens as texts;
ghost use Rattle.md_asm_text.specs.Shown.{shown};
ghost use Rattle.asm_z80.specs.Building as building;
ghost use Rattle.asm_z80.specs.Checked as checked;
ghost use Rattle.asm_z80.specs.Reading as reading;

use crate::building::built;
use crate::reader::read;
use crate::stems::mnemonic_of;
use crate::{Bytes, encode};
use md_asm_text::{Token, same, split};
use md_disasm::text80;
use md_word::NoMemory;
use std::alloc::Global;
use z80_decode::{Op80, decode};

/// One to four bytes, with bytes of 0 after them up to four.
fn padded(bytes: &[u8]) -> [u8; 4]
    ensures { result ≡ checked.padded bytes.now }
{
    match bytes {
        [] => [0, 0, 0, 0],
        [a] => [*a, 0, 0, 0],
        [a, b] => [*a, *b, 0, 0],
        [a, b, c] => [*a, *b, *c, 0],
        [a, b, c, d, ..] => [*a, *b, *c, *d],
    }
}

/// The instruction that is read of tokens, whatever they are; the round-trip check decides whether it is theirs.
#[tactic(auto, unfolding(crate::specs::Building::meant))]
fn meant(tokens: &[Token<'_>], at: u16) -> Op80
    ensures { result ≡ building.meant (reading.read_source (map shown tokens.now)) at }
{
    let source = read(tokens);
    built(
        mnemonic_of(source.mnemonic),
        source.first,
        source.second,
        at,
    )
}

/// The round-trip check: whether bytes decode to an instruction whose text at an address has these tokens. It fails where
/// memory runs out.
fn is_round_trip(
    alloc: Global,
    bytes: &[u8],
    tokens: &[Token<'_>],
    at: u16,
) -> Result<bool, NoMemory>
    ensures { IfOk result (λ line_tokens. IsTrue line_tokens ↔ (texts.tokens (text_of (instruction_of (checked.padded bytes.now)) at) ≡ map shown tokens.now)) }
{
    let decoded = decode(&padded(bytes));
    let text = text80(alloc, &decoded, at)?;
    let own = split(alloc, text.as_bytes())?;
    Ok(same(&own, tokens))
}

/// The one to four bytes of an instruction of the Z80 that is written, at an address, or `None` where its tokens are those
/// of no instruction's text there. It fails where memory runs out.
pub fn bytes_of(alloc: Global, tokens: &[Token<'_>], at: u16) -> Result<Option<Bytes>, NoMemory>
    ensures some { IfOk result (λ found. IfSome found (λ bytes. bytes.items ≡ checked.tried (map shown tokens.now) at)) }
    ensures round_trips { IfOk result (λ found. IfSome found (λ bytes. texts.tokens (text_of (instruction_of (checked.padded bytes.items)) at) ≡ map shown tokens.now)) }
    ensures none { IfOk result (λ found. IfNone found (texts.tokens (text_of (instruction_of (checked.padded (checked.tried (map shown tokens.now) at))) at) ≡ map shown tokens.now → ⊥)) }
{
    let bytes = encode(&meant(tokens, at));
    if is_round_trip(alloc, bytes.as_slice(), tokens, at)? {
        Ok(Some(bytes))
    } else {
        Ok(None)
    }
}
