ghost use Rattle.std.specs.Prelude.{◌≡◌, ◌≤◌, ◌++◌, ◌∷◌, [], map, length, take, drop, IfOk, OnOk};
ghost use Rattle.md_asm_text.specs.Tokens as meaning;
ghost use Rattle.md_asm_text.specs.Runs.{marks, run};
ghost use Rattle.md_asm_text.specs.Shown.{shown};

use crate::characters::is_worded;
use crate::token::Token;
use crate::words::token_of;
use md_word::NoMemory;
use std::alloc::Global;

/// Appends the token of a word, unless the word is empty. It fails where memory runs out.
fn put_word<'a>(tokens: &mut Vec<Token<'a>>, word: &'a [u8]) -> Result<(), NoMemory>
    ensures { OnOk result (map shown tokens.new.items ≡ map shown tokens.old.items ++ meaning.closed word.now) }
{
    if !word.is_empty() {
        tokens.push(token_of(word))?;
    }
    Ok(())
}

/// How many characters of a word a text begins with.
fn run_of(text: &[u8]) -> usize
    ensures value { result ≡ run text.now }
    ensures within { result ≤ length text.now }
{
    let mut count = 0;
    let mut rest = text;
    while let [c, after @ ..] = rest {
        if !is_worded(*c) {
            return count;
        }
        count += 1;
        rest = after;
    }
    count
}

/// Appends the token of the word that a text begins with, if any, and hands out what follows it. It fails where memory
/// runs out.
#[tactic(auto, using(crate::proofs::Runs::split_front))]
fn put_front<'a>(tokens: &mut Vec<Token<'a>>, text: &'a [u8]) -> Result<&'a [u8], NoMemory>
    ensures split { IfOk result (λ rest. map shown tokens.new.items ++ marks rest.now ≡ map shown tokens.old.items ++ meaning.split [] text.now) }
    ensures shorter { IfOk result (λ rest. length rest.now ≤ length text.now) }
{
    let count = run_of(text);
    put_word(tokens, &text[..count])?;
    Ok(&text[count..])
}

/// Appends the tokens from a character on that belongs to no word. It fails where memory runs out.
fn put_marks<'a>(tokens: &mut Vec<Token<'a>>, text: &'a [u8]) -> Result<(), NoMemory>
    ensures { OnOk result (map shown tokens.new.items ≡ map shown tokens.old.items ++ marks text.now) }
{
    let mut rest = text;
    while let [c, after @ ..] = rest {
        tokens.push(Token::Mark(*c))?;
        rest = put_front(tokens, after)?;
    }
    Ok(())
}

/// The tokens of an instruction's text, of which the first is the word that it begins with. It fails where memory runs
/// out.
#[tactic(auto, using(crate::proofs::Runs::opened_front))]
pub fn split<'a>(alloc: Global, text: &'a [u8]) -> Result<Vec<Token<'a>>, NoMemory>
    ensures { IfOk result (λ v. map shown v.items ≡ meaning.tokens text.now) }
{
    let mut tokens = Vec::new(alloc);
    let count = run_of(text);
    tokens.push(Token::Word(&text[..count]))?;
    put_marks(&mut tokens, &text[count..])?;
    Ok(tokens)
}
