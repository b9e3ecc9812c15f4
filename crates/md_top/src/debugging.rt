ghost use Rattle.std.specs.Prelude.{◌≡◌};
ghost use Rattle.md_args.specs.Shown.{shown_debugging};
ghost use Rattle.md_outer.specs.Outside.{PutsText};
ghost use Rattle.md_top.specs.Debuggings.{DebugEnds, ShowsReplies, fault_text, played_outcome, script_line};

use crate::command_outcome::CommandOutcome;
use crate::put::put_two;
use crate::reading::read_cart;
use crate::report::put_number;
use debug_text::ScriptOutcome;
use itoa::Buffer;
use md_args::{DebugWords, Input};
use md_debug::{DebugFault, play_script};
use md_outer::{Depot, Failed, Fetch, Sink};
use std::alloc::Global;

/// The greatest length of a script.
const LONGEST_SCRIPT: u64 = 65_536;

/// Plays the script that the words name in a session of the debugger, at power-on of the cartridge, and puts the
/// reply to each line when it was obeyed.
pub(crate) fn debug_cart<D: Depot, S: Sink>(
    alloc: Global,
    words: &DebugWords<'_>,
    depot: &mut D,
    out: &mut S,
) -> CommandOutcome
    ensures cause { DebugEnds D.observable (shown_debugging words.now) (D.state depot.old) (D.state depot.new) result }
    ensures files { D.observable → (D.state depot.new).files ≡ (D.state depot.old).files }
    ensures shown { ShowsReplies D.observable S.observable (shown_debugging words.now) (D.state depot.old).files result (S.state out.old) (S.state out.new) }
{
    let cart = match read_cart(alloc, words.rom, depot) {
        Ok(cart) => cart,
        Err(command_outcome) => return command_outcome,
    };
    let script = match depot.fetch(alloc, words.script, LONGEST_SCRIPT) {
        Ok(script) => script,
        Err(Fetch::Failed) => return CommandOutcome::ReadFault(Input::Script),
        Err(Fetch::TooLong) => return CommandOutcome::TooLong(Input::Script),
        Err(Fetch::NoMemory) => return CommandOutcome::Memory,
    };
    match play_script(alloc, cart, script.as_slice(), out) {
        Ok(command_outcome) => ended(command_outcome),
        Err(Failed) => CommandOutcome::ReplyFault,
    }
}

/// What a script results in, as an outcome.
fn ended(command_outcome: ScriptOutcome<DebugFault>) -> CommandOutcome
    ensures { result ≡ played_outcome command_outcome }
{
    match command_outcome {
        ScriptOutcome::Obeyed => CommandOutcome::Played,
        ScriptOutcome::Refused(line, fault) => CommandOutcome::ScriptRefused { line, fault },
        ScriptOutcome::OutOfMemory => CommandOutcome::ScriptMemory,
    }
}

/// Puts the line of a script that is refused.
pub(crate) fn put_script_line<S: Sink>(
    out: &mut S,
    line: u64,
    fault: DebugFault,
) -> Result<(), Failed>
    ensures { PutsText S.observable (script_line line fault) (S.state out.old) (S.state out.new) result }
{
    let mut digits = Buffer::new();
    match put_two(out, "refused: script line ", digits.format(line).as_bytes()) {
        Ok(()) => put_fault(out, fault),
        Err(failed) => Err(failed),
    }
}

/// Puts the end of such a line.
fn put_fault<S: Sink>(out: &mut S, fault: DebugFault) -> Result<(), Failed>
    ensures { PutsText S.observable (fault_text fault) (S.state out.old) (S.state out.new) result }
{
    match fault {
        DebugFault::UnknownWord => out.put(b": unknown word\n"),
        DebugFault::BadNumber => out.put(b": bad number\n"),
        DebugFault::NotKept { oldest } => put_number(out, ": not kept, oldest ", oldest),
        DebugFault::NoMemory => out.put(b": memory\n"),
    }
}
