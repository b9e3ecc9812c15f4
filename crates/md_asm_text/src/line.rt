ghost use Rattle.std.specs.Prelude.{◌≡◌, IfOk, map, option_map};
ghost use Rattle.md_asm_text.specs.Tokens as texts;
ghost use Rattle.md_asm_text.specs.Shown.{shown};
ghost use Rattle.md_asm_text.specs.Lines as lines;
ghost use Rattle.md_asm_text.specs.Seen.{line_seen};

use crate::body::Body;
use crate::cutting::{before, following, has};
use crate::directives::directive_of;
use crate::trimming::{cut_back, unblanked};
use crate::{Token, is_name, split};
use md_word::NoMemory;
use std::alloc::Global;

/// A line of a source.
#[derive(Drop)]
pub struct Line<'a> {
    /// The name before the first colon; `None` without a colon, or where the text before it is no name.
    pub label: Option<&'a [u8]>,
    /// The text after it, without blanks at either end.
    pub text: &'a [u8],
    /// The tokens of this text.
    pub tokens: Vec<Token<'a>>,
    /// What this text is.
    pub body: Body,
}

/// What a text without blanks at either end is, by its tokens.
fn body_of(text: &[u8], tokens: &[Token<'_>]) -> Body
    requires { map shown tokens.now ≡ texts.tokens text.now }
    ensures { result ≡ lines.body_of text.now }
{
    if text.is_empty() {
        Body::Nothing
    } else {
        directive_of(tokens)
    }
}

/// A line with this label and this text. It fails where memory runs out.
fn with_body<'a>(
    alloc: Global,
    label: Option<&'a [u8]>,
    text: &'a [u8],
) -> Result<Line<'a>, NoMemory>
    ensures line { IfOk result (λ line. line_seen line ≡ lines.with_body (option_map (λ name. name.now) label.entry) text.now) }
    ensures tokens { IfOk result (λ line. map shown line.tokens.items ≡ texts.tokens line.text.now) }
{
    let line_tokens = split(alloc, text)?;
    let body = body_of(text, line_tokens.as_slice());
    Ok(Line {
        label,
        text,
        tokens: line_tokens,
        body,
    })
}

/// The line of a text without a comment and blanks at either end. It fails where memory runs out.
fn labelled<'a>(alloc: Global, text: &'a [u8]) -> Result<Line<'a>, NoMemory>
    ensures line { IfOk result (λ line. line_seen line ≡ lines.labelled text.now) }
    ensures tokens { IfOk result (λ line. map shown line.tokens.items ≡ texts.tokens line.text.now) }
{
    if !has(text, 58) {
        return with_body(alloc, None, text);
    }
    let name = before(text, 58);
    if is_name(name) {
        with_body(alloc, Some(name), unblanked(following(text, 58)))
    } else {
        let nothing: &'a [u8] = &[];
        let line_tokens = split(alloc, nothing)?;
        Ok(Line {
            label: None,
            text: nothing,
            tokens: line_tokens,
            body: Body::Bad,
        })
    }
}

/// A line of a source, of its text without the line feed.
///
/// The text from a semicolon on is a comment. Spaces and tabs at either end and after the label's colon are left out. A
/// directive has one space after its name and none elsewhere. It fails only where memory runs out: a line that is none
/// has the body `Bad` or `Instruction`.
#[tactic(auto, unfolding(crate::specs::Lines::line_of))]
pub fn read_line<'a>(alloc: Global, text: &'a [u8]) -> Result<Line<'a>, NoMemory>
    ensures line { IfOk result (λ line. line_seen line ≡ lines.line_of text.now) }
    ensures tokens { IfOk result (λ line. map shown line.tokens.items ≡ texts.tokens line.text.now) }
{
    labelled(alloc, cut_back(unblanked(before(text, 59))))
}
