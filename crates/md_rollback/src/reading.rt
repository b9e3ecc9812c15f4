ghost use Rattle.std.specs.Prelude.{◌≡◌, option_map, option_and_then};
ghost use Rattle.std.specs.Option.{option_copied};
ghost use Rattle.debug_text.specs.Commands.{following, word_in};
ghost use Rattle.text_lines.specs.Digits.{decimal_of};
ghost use Rattle.md_rollback.specs.Lines as meaning;

use crate::line::{Line, Player};
use crate::number::read_buttons;
use debug_text::{following, is_ascii, word_in};
use std::str::from_utf8;
use text_lines::read_decimal;

/// Reads a line of a script, without its line feed; `None` where it asks for nothing that there is.
pub fn read_line(line: &[u8]) -> Option<Line>
    ensures { result ≡ meaning.line_of line.now }
{
    match from_utf8(line) {
        Ok(text) => read_ascii(text),
        Err(_) => None,
    }
}

fn read_ascii(line: &str) -> Option<Line>
    ensures { result ≡ meaning.line_of line.now }
{
    if is_ascii(line) {
        read_text(line)
    } else {
        None
    }
}

fn read_text(line: &str) -> Option<Line>
    ensures { result ≡ meaning.line_in line.now }
{
    if line == "a" {
        return Some(Line::Advance);
    }
    let numbers = following(line);
    match read_player(word_in(line)) {
        Some(player) => press(player, numbers),
        None => None,
    }
}

fn read_player(word: &str) -> Option<Player>
    ensures { result ≡ meaning.player_of word.now }
{
    if word == "l" {
        return Some(Player::Local);
    }
    if word == "r" {
        return Some(Player::Remote);
    }
    None
}

/// The buttons of a player, with the frame: they follow the frame and a blank. `None` where either is not as it
/// should be.
fn press(player: Player, numbers: Option<&str>) -> Option<Line>
    ensures { result ≡ option_and_then (meaning.press_of player) (option_copied numbers.entry) }
{
    match numbers {
        Some(numbers) => press_in(player, numbers),
        None => None,
    }
}

fn press_in(player: Player, numbers: &str) -> Option<Line>
    ensures { result ≡ meaning.press_of player numbers.now }
{
    match read_decimal(word_in(numbers)) {
        Some(frame) => match buttons_in(following(numbers)) {
            Some(buttons) => Some(Line::Press(player, frame, buttons)),
            None => None,
        },
        None => None,
    }
}

fn buttons_in(word: Option<&str>) -> Option<u16>
    ensures { result ≡ option_and_then meaning.buttons_of (option_copied word.entry) }
{
    match word {
        Some(word) => read_buttons(word),
        None => None,
    }
}
