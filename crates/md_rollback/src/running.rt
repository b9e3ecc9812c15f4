ghost use Rattle.std.specs.Prelude.{◌≤◌, IfOk};
ghost use Rattle.std.specs.Arc.{arc_value};
ghost use Rattle.md_rollback.specs.Rolls.{CompletesWith, IsRolled};

use crate::opening::session;
use crate::rolled::{Completion, Rolled};
use crate::{Session, play};
use debug_text::ScriptOutcome;
use md_word::NoMemory;
use rom_header::Cart;
use save_state::write;
use sha2::{Digest, Sha256};
use state_laws::StateReplays;
use std::alloc::Global;
use std::sync::Arc;

/// Obeys a script with a cartridge, from power-on of NTSC on. Its outcome is the first refused line, or what is
/// reported of the last frame, or that memory ran out.
pub fn run_script(alloc: Global, cart: Arc<Cart>, window: u32, script: &[u8]) -> Completion
    requires some { 1 ≤ window }
    requires most { window ≤ 16 }
    ensures { CompletesWith (arc_value cart) window script.now result }
{
    let mut session = match session(alloc, cart, window) {
        Ok(session) => session,
        Err(NoMemory) => return Completion::NoMemory,
    };
    match play(&mut session, script) {
        ScriptOutcome::Obeyed => match last_frame(alloc, &session) {
            Ok(rolled) => Completion::Done(rolled),
            Err(NoMemory) => Completion::NoMemory,
        },
        ScriptOutcome::Refused(line, fault) => Completion::Refused(line, fault),
        ScriptOutcome::OutOfMemory => Completion::NoMemory,
    }
}

/// What is reported of a session. It fails only when memory runs out.
fn last_frame(alloc: Global, session: &Session<StateReplays>) -> Result<Rolled, NoMemory>
    ensures { IfOk result (IsRolled session.now) }
{
    let bytes = write(alloc, session.machine())?;
    Ok(Rolled {
        frames: session.frames(),
        confirmed: session.confirmed(),
        digest: Sha256::digest(bytes.as_slice()),
    })
}
