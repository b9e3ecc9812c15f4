ghost use Rattle.std.specs.Prelude.{◌≡◌, ◌<◌, ◌≤◌, ◌&&◌, ◌++◌, ◌∷◌, [], ◌+◌, map, length, not, take, drop, false};
ghost use Rattle.md_asm_text.specs.Shown.{shown};
ghost use Rattle.asm_m68k.specs.Forms.{IsForm};
ghost use Rattle.asm_m68k.specs.Reading as reading;
ghost use Rattle.asm_m68k.specs.Written.{source_seen};

use crate::form::Form;
use crate::reading::{begins, operand_form};
use md_asm_text::{Token, first_operand, second_operand};
use md_word::Size;

/// An instruction as it is written.
#[derive(Clone, Copy)]
pub struct Source<'a> {
    /// Its mnemonic, without the size.
    pub mnemonic: &'a [u8],
    /// Its size, or `None` where none is written.
    pub size: Option<Size>,
    pub first: Form,
    pub second: Form,
}

/// The size of a letter: b, w, and any other for long.
fn size_of(word: &[u8]) -> Size
    ensures { result ≡ reading.size_of word.now }
{
    if begins(98, word) {
        Size::Byte
    } else if begins(119, word) {
        Size::Word
    } else {
        Size::Long
    }
}

fn with_operands<'a>(mnemonic: &'a [u8], size: Option<Size>, tokens: &[Token<'a>]) -> Source<'a>
    ensures seen { source_seen result ≡ reading.with_operands mnemonic.now size (map shown tokens.now) }
    ensures first { IsForm result.first }
    ensures second { IsForm result.second }
{
    match tokens {
        [] => Source {
            mnemonic,
            size,
            first: Form::Nothing,
            second: Form::Nothing,
        },
        [_, rest @ ..] => Source {
            mnemonic,
            size,
            first: operand_form(first_operand(rest)),
            second: operand_form(second_operand(rest)),
        },
    }
}

fn with_size<'a>(mnemonic: &'a [u8], tokens: &[Token<'a>]) -> Source<'a>
    ensures seen { source_seen result ≡ reading.with_size mnemonic.now (map shown tokens.now) }
    ensures first { IsForm result.first }
    ensures second { IsForm result.second }
{
    match tokens {
        [Token::Mark(46), Token::Word(word), rest @ ..] => {
            with_operands(mnemonic, Some(size_of(word)), rest)
        }
        _ => with_operands(mnemonic, None, tokens),
    }
}

/// The instruction that is read of tokens. It is total: each text is taken for one of the forms that its kinds of tokens
/// allow, and the round-trip check refuses what is none.
#[tactic(auto, unfolding(crate::specs::Reading::read_source))]
pub fn read<'a>(tokens: &[Token<'a>]) -> Source<'a>
    ensures seen { source_seen result ≡ reading.read_source (map shown tokens.now) }
    ensures first { IsForm result.first }
    ensures second { IsForm result.second }
{
    match tokens {
        [Token::Word(mnemonic), rest @ ..] => with_size(mnemonic, rest),
        _ => Source {
            mnemonic: &[],
            size: None,
            first: Form::Nothing,
            second: Form::Nothing,
        },
    }
}
