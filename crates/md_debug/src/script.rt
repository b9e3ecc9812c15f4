ghost use Rattle.std.specs.Prelude.{◌≡◌, ◌≢◌, OnErr, IfOk, IfErr, Ok, Some, None};
ghost use Rattle.debug_text.specs.Commands.{command_of};
ghost use Rattle.debug_text.specs.declared.command.Command.{Command};
ghost use Rattle.md_debug.specs.Sessions.{Obeys, reply_to};
ghost use Rattle.text_lines.specs.Lines.{lines_of};
ghost use Rattle.md_debug.specs.Scripts.{IsRefused, PutsReplies, StopsAtReply};

use crate::{DebugFault, Session};
use debug_text::{ScriptOutcome, script_outcome_of};
use md_machine::Machine;
use md_outer::{Failed, Sink};
use page_ring::Images;
use std::str::from_utf8;
use text_lines::NumberedLines;

/// Obeys the lines of a script one after another, up to the first one that is refused. The reply to each is
/// written before the next one is obeyed. It fails where a reply cannot be written; then no further line is
/// obeyed.
pub fn play<I: Images<Machine>, S: Sink>(
    session: &mut Session<I>,
    script: &[u8],
    out: &mut S,
) -> Result<ScriptOutcome<DebugFault>, Failed>
    ensures ends { IfOk result (λ script_outcome. PutsReplies I.size I.spelling I.keeps S.observable (lines_of script.now) session.old session.new (S.state out.old) (S.state out.new) script_outcome) }
    ensures stops { OnErr result (StopsAtReply I.size I.spelling I.keeps S.observable (lines_of script.now) session.old session.new (S.state out.old) (S.state out.new)) }
{
    let mut lines = NumberedLines::of(script);
    while let Some(line) = lines.next() {
        let reply = match obey(session, line) {
            Ok(reply) => reply,
            Err(fault) => return Ok(script_outcome_of(lines.number, refusal_of(fault))),
        };
        match out.put(reply.as_slice()) {
            Ok(()) => {}
            Err(failed) => return Err(failed),
        }
    }
    Ok(ScriptOutcome::Obeyed)
}

/// The fault for which a line is refused: none where memory ran out.
fn refusal_of(fault: DebugFault) -> Option<DebugFault>
    ensures memory { fault ≡ DebugFault.NoMemory → result ≡ None }
    ensures refused { fault ≢ DebugFault.NoMemory → result ≡ Some fault }
{
    match fault {
        DebugFault::NoMemory => None,
        DebugFault::UnknownWord | DebugFault::BadNumber | DebugFault::NotKept { .. } => Some(fault),
    }
}

/// Obeys a line, and returns its reply. It fails as `Session::obey` does, and where the bytes are no text; then
/// the session is as before.
fn obey<I: Images<Machine>>(session: &mut Session<I>, line: &[u8]) -> Result<Vec<u8>, DebugFault>
    ensures obeyed { IfOk result (λ reply. (command : Command) × ((command_of line.now ≡ Ok command) × (Obeys I.size I.spelling I.keeps session.old command session.new
        × (reply.items ≡ reply_to command session.new)))) }
    ensures refused { IfErr result (λ fault. fault ≢ DebugFault.NoMemory → IsRefused session.old line.now fault) }
    ensures fault { OnErr result (session.new ≡ session.old) }
{
    match from_utf8(line) {
        Ok(text) => session.obey(text),
        Err(_) => Err(DebugFault::UnknownWord),
    }
}
