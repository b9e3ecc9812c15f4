// What the command line reads of words, as an answer writes it.
use md_args::{CommandWords, DemoWords, RunWords, read_words};
use row_lines::{RowError, text_of};
use std::alloc::{AllocError, Global};

/// A word of what was read: a name, a number, or none.
#[derive(Clone, Copy)]
enum Word<'a> {
    Name(&'a str),
    Number(u64),
    Nothing,
}

/// What a name reads as, and a hyphen for none.
fn name_of<'a>(name: Option<&'a str>) -> Word<'a> {
    Word::Name(name.unwrap_or("-"))
}

/// What PAL reads as where it is asked for.
fn region_of<'a>(pal: bool) -> Word<'a> {
    if pal {
        Word::Name("PAL")
    } else {
        Word::Nothing
    }
}

/// Three words.
fn three<'a>(first: Word<'a>, second: Word<'a>, third: Word<'a>) -> [Word<'a>; 8] {
    let none = Word::Nothing;
    [first, second, third, none, none, none, none, none]
}

/// What was read of a run: the cartridge, its count and the names of the recording, of the frames file, of the sound
/// file and of the journal, and how many workers make it, with PAL where it is asked for.
fn run_of<'a>(run: &RunWords<'a>) -> [Word<'a>; 8] {
    [
        Word::Name(run.rom),
        Word::Number(run.cycles),
        name_of(run.recording),
        name_of(run.frames),
        name_of(run.sound),
        name_of(run.journal),
        Word::Number(u64::from(run.workers)),
        region_of(run.pal),
    ]
}

/// What was read of a run of a demonstration cartridge: its number, the count and the workers, with PAL where it is
/// asked for.
fn demo_of<'a>(demo: &DemoWords) -> [Word<'a>; 8] {
    let none = Word::Nothing;
    let number = Word::Number(demo.number);
    let cycles = Word::Number(demo.cycles);
    let workers = Word::Number(u64::from(demo.workers));
    [
        number,
        cycles,
        workers,
        region_of(demo.pal),
        none,
        none,
        none,
        none,
    ]
}

/// What was read: of a cartridge its name; of a run and of one of a demonstration cartridge what is said above; of a
/// conversion both names and whether PAL is asked for; of an assembly the names of the source, the image and the list;
/// of a session of the debugger those of the cartridge and the script; of one of two players those of the cartridge
/// and of what they press, and the window.
fn command_of<'a>(read: &CommandWords<'a>) -> [Word<'a>; 8] {
    match read {
        CommandWords::Info(rom) => three(Word::Name(*rom), Word::Nothing, Word::Nothing),
        CommandWords::Run(run) => run_of(run),
        CommandWords::Demo(demo) => demo_of(demo),
        CommandWords::Convert(words) => {
            let pal = if words.pal { "true" } else { "false" };
            three(
                Word::Name(words.input),
                Word::Name(words.output),
                Word::Name(pal),
            )
        }
        CommandWords::Assemble(words) => {
            let list = name_of(words.list);
            three(Word::Name(words.source), Word::Name(words.output), list)
        }
        CommandWords::Debug(words) => {
            three(
                Word::Name(words.rom),
                Word::Name(words.script),
                Word::Nothing,
            )
        }
        CommandWords::Rollback(words) => {
            let window = Word::Number(u64::from(words.window));
            three(Word::Name(words.rom), Word::Name(words.inputs), window)
        }
    }
}

/// Adds a word, after a space where another one stands before it.
fn put_word(text: &mut String, word: Word<'_>) -> Result<(), AllocError> {
    let space = if text.is_empty() { "" } else { " " };
    match word {
        Word::Name(name) => write!(text, "{space}{name}"),
        Word::Number(number) => write!(text, "{space}{number}"),
        Word::Nothing => Ok(()),
    }
}

fn put_words(text: &mut String, words: &[Word<'_>]) -> Result<(), AllocError> {
    for word in words {
        put_word(text, *word)?;
    }
    Ok(())
}

/// Words as a text, with spaces between them.
fn spelled(alloc: Global, words: &[Word<'_>; 8]) -> Result<String, RowError> {
    let mut text = String::new(alloc);
    put_words(&mut text, words)?;
    Ok(text)
}

/// What words are read as: what the command has of them, or that they are refused.
pub(crate) fn read(alloc: Global, words: &Vec<String>) -> Result<String, RowError> {
    match read_words(alloc, words)? {
        Some(read) => spelled(alloc, &command_of(&read)),
        None => text_of(alloc, "refused"),
    }
}
