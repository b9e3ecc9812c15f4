ghost use Rattle.std.specs.Prelude.{◌≡◌, map};
ghost use Rattle.md_asm_text.specs.Shown.{shown};
ghost use Rattle.asm_z80.specs.Forms.{seen};
ghost use Rattle.asm_z80.specs.Reading as reading;
ghost use Rattle.asm_z80.specs.Written.{source_seen};

use crate::form::Form80;
use md_asm_text::{Token, first_operand, second_operand};

/// An instruction as it is written.
#[derive(Clone, Copy)]
pub(crate) struct Source80<'a> {
    /// Its mnemonic.
    pub(crate) mnemonic: &'a [u8],
    pub(crate) first: Form80<'a>,
    pub(crate) second: Form80<'a>,
}

/// After a word in brackets.
fn based<'a>(word: &'a [u8], tokens: &[Token<'a>]) -> Form80<'a>
    ensures { seen result ≡ reading.based word.now (map shown tokens.now) }
{
    match tokens {
        [_, Token::Number(n), ..] => Form80::Displaced(word, *n),
        _ => Form80::AtWord(word),
    }
}

/// After a bracket.
fn bracketed<'a>(tokens: &[Token<'a>]) -> Form80<'a>
    ensures { seen result ≡ reading.bracketed (map shown tokens.now) }
{
    match tokens {
        [Token::Number(n), ..] => Form80::AtNumber(*n),
        [Token::Word(word), rest @ ..] => based(word, rest),
        _ => Form80::Nothing,
    }
}

/// The form of an operand.
fn operand_form<'a>(tokens: &[Token<'a>]) -> Form80<'a>
    ensures { seen result ≡ reading.operand_form (map shown tokens.now) }
{
    match tokens {
        [] => Form80::Nothing,
        [Token::Word(word), ..] => Form80::Worded(word),
        [Token::Number(n), ..] => Form80::Bare(*n),
        [_, rest @ ..] => bracketed(rest),
    }
}

fn with_operands<'a>(mnemonic: &'a [u8], tokens: &[Token<'a>]) -> Source80<'a>
    ensures { source_seen result ≡ reading.with_operands mnemonic.now (map shown tokens.now) }
{
    match tokens {
        [] => Source80 {
            mnemonic,
            first: Form80::Nothing,
            second: Form80::Nothing,
        },
        [_, rest @ ..] => Source80 {
            mnemonic,
            first: operand_form(first_operand(rest)),
            second: operand_form(second_operand(rest)),
        },
    }
}

/// The instruction that is read of tokens. It is total: each text is taken for one of the forms that its kinds of tokens
/// allow, and the round-trip check refuses what is none.
#[tactic(auto, unfolding(crate::specs::Reading::read_source))]
pub(crate) fn read<'a>(tokens: &[Token<'a>]) -> Source80<'a>
    ensures { source_seen result ≡ reading.read_source (map shown tokens.now) }
{
    match tokens {
        [Token::Word(mnemonic), rest @ ..] => with_operands(mnemonic, rest),
        _ => Source80 {
            mnemonic: &[],
            first: Form80::Nothing,
            second: Form80::Nothing,
        },
    }
}
