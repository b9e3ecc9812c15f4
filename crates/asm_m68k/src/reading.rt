ghost use Rattle.std.specs.Prelude.{◌≡◌, ◌<◌, ◌≤◌, map, length, if◌then◌else◌};
ghost use Rattle.md_asm_text.specs.Shown.{shown};
ghost use Rattle.asm_m68k.specs.Forms.{IsForm};
ghost use Rattle.asm_m68k.specs.Reading as reading;
ghost use Rattle.asm_m68k.specs.Seen.{masks_seen};

use crate::form::Form;
use md_asm_text::Token;

/// A register of sixteen: a letter and a digit.
#[tactic(auto, unfolding(crate::specs::Reading::register_of))]
fn register_of(word: &[u8]) -> u8
    ensures value { result ≡ reading.register_of word.now }
    ensures below { result < 16 }
{
    match word {
        [97, d, ..] => 8 + *d % 8,
        [_, d, ..] => *d % 8,
        _ => 0,
    }
}

/// A register of one kind.
fn low_register_of(word: &[u8]) -> u8
    ensures value { result ≡ reading.low_register_of word.now }
    ensures below { result < 8 }
{
    register_of(word) % 8
}

/// Whether a word begins with a character.
pub(crate) fn begins(c: u8, word: &[u8]) -> bool
    ensures { result ≡ reading.begins c word.now }
{
    match word {
        [] => false,
        [d, ..] => *d == c,
    }
}

/// A word that is an operand.
#[tactic(auto, unfolding(crate::specs::Reading::word_form))]
fn word_form(word: &[u8]) -> Form
    ensures value { result ≡ reading.word_form word.now }
    ensures registers { IsForm result }
{
    match word {
        [115, _] => Form::Sr,
        [_, _] => Form::Register(register_of(word)),
        [99, _, _] => Form::Ccr,
        [_, _, _] => Form::Usp,
        _ => Form::Registers(0, 0),
    }
}

/// The bits of a list's registers, from D0 up and from A7 down.
#[derive(Clone, Copy)]
pub(crate) struct Masks {
    pub(crate) up: u16,
    pub(crate) down: u16,
}

/// One register more.
fn with_register(n: u8, masks: Masks) -> Masks
    requires { n < 16 }
    ensures { masks_seen result ≡ reading.with_register n (masks_seen masks) }
{
    Masks {
        up: (((1u32 << n) + u32::from(masks.up)) % 65536) as u16,
        down: (((1u32 << (15 - n)) + u32::from(masks.down)) % 65536) as u16,
    }
}

/// The registers of a list.
#[tactic(auto, unfolding(crate::specs::Reading::masks_of))]
fn masks_of(tokens: &[Token<'_>]) -> Masks
    ensures { masks_seen result ≡ reading.masks_of (map shown tokens.now) }
{
    match tokens {
        [] => Masks { up: 0, down: 0 },
        [Token::Word(word), rest @ ..] => with_register(register_of(word), masks_of(rest)),
        [_, rest @ ..] => masks_of(rest),
    }
}

/// (An) or (An)+, by what follows An.
fn bracketed(word: &[u8], tokens: &[Token<'_>]) -> Form
    ensures value { result ≡ reading.bracketed word.now (map shown tokens.now) }
    ensures registers { IsForm result }
{
    match tokens {
        [] => Form::Nothing,
        [_] => Form::Indirect(low_register_of(word)),
        [_, _, ..] => Form::PostInc(low_register_of(word)),
    }
}

fn lowered(tokens: &[Token<'_>]) -> Form
    ensures value { result ≡ reading.lowered (map shown tokens.now) }
    ensures registers { IsForm result }
{
    match tokens {
        [Token::Word(word), ..] => Form::PreDec(low_register_of(word)),
        _ => Form::Nothing,
    }
}

/// After a character.
fn marked(tokens: &[Token<'_>]) -> Form
    ensures value { result ≡ reading.marked (map shown tokens.now) }
    ensures registers { IsForm result }
{
    match tokens {
        [] => Form::Nothing,
        [Token::Number(n), ..] => Form::Immediate(*n),
        [Token::Word(word), rest @ ..] => bracketed(word, rest),
        [_, rest @ ..] => lowered(rest),
    }
}

fn indexed(n: u32, word: &[u8], index: &[u8], size: &[u8]) -> Form
    ensures value { result ≡ reading.indexed n word.now index.now size.now }
    ensures registers { IsForm result }
{
    if begins(112, word) {
        Form::PcIndexed(register_of(index), begins(108, size), n)
    } else {
        Form::Indexed(
            low_register_of(word),
            register_of(index),
            begins(108, size),
            n,
        )
    }
}

fn with_index(n: u32, word: &[u8], index: &[u8], tokens: &[Token<'_>]) -> Form
    ensures value { result ≡ reading.with_index n word.now index.now (map shown tokens.now) }
    ensures registers { IsForm result }
{
    match tokens {
        [_, Token::Word(size), ..] => indexed(n, word, index, size),
        _ => Form::Nothing,
    }
}

fn based(n: u32, word: &[u8], tokens: &[Token<'_>]) -> Form
    ensures value { result ≡ reading.based n word.now (map shown tokens.now) }
    ensures registers { IsForm result }
{
    match tokens {
        [] => {
            if begins(112, word) {
                Form::PcDisplaced(n)
            } else {
                Form::Displaced(low_register_of(word), n)
            }
        }
        [Token::Word(index), rest @ ..] => with_index(n, word, index, rest),
        [_, ..] => Form::Nothing,
    }
}

fn sized(n: u32, word: &[u8], tokens: &[Token<'_>]) -> Form
    ensures value { result ≡ reading.sized n word.now (map shown tokens.now) }
    ensures registers { IsForm result }
{
    match tokens {
        [] => {
            if begins(119, word) {
                Form::Short(n)
            } else {
                Form::Long(n)
            }
        }
        [_, rest @ ..] => based(n, word, rest),
    }
}

fn after_number(n: u32, tokens: &[Token<'_>]) -> Form
    ensures value { result ≡ reading.after_number n (map shown tokens.now) }
    ensures registers { IsForm result }
{
    match tokens {
        [Token::Word(word), rest @ ..] => sized(n, word, rest),
        _ => Form::Nothing,
    }
}

/// After a number.
fn numbered(n: u32, tokens: &[Token<'_>]) -> Form
    ensures value { result ≡ reading.numbered n (map shown tokens.now) }
    ensures registers { IsForm result }
{
    match tokens {
        [] => Form::Bare(n),
        [_, rest @ ..] => after_number(n, rest),
    }
}

fn list(tokens: &[Token<'_>]) -> Form
    ensures value { result ≡ reading.registers_of (map shown tokens.now) }
    ensures registers { IsForm result }
{
    let masks = masks_of(tokens);
    Form::Registers(masks.up, masks.down)
}

/// The form of an operand.
#[tactic(auto, unfolding(crate::specs::Reading::operand_form))]
pub(crate) fn operand_form(tokens: &[Token<'_>]) -> Form
    ensures value { result ≡ reading.operand_form (map shown tokens.now) }
    ensures registers { IsForm result }
{
    match tokens {
        [] => Form::Nothing,
        [Token::Word(word)] => word_form(word),
        [Token::Word(_), _, ..] => list(tokens),
        [Token::Number(n), rest @ ..] => numbered(*n, rest),
        [_, rest @ ..] => marked(rest),
    }
}
