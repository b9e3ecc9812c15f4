ghost use Rattle.std.specs.Prelude.{◌≡◌, ℕ, List, OnOk, IfErr, Some};
ghost use Rattle.text_lines.specs.Lines.{lines_of};
ghost use Rattle.md_rollback.specs.Lines.{line_of};
ghost use Rattle.md_rollback.specs.declared.line.Line.{Line as Asked};
ghost use Rattle.md_rollback.specs.declared.line.Line.TheVariants as asked;
ghost use Rattle.md_rollback.specs.declared.line.Player.TheVariants as players;
ghost use Rattle.md_rollback.specs.Following.{Follows};
ghost use Rattle.md_rollback.specs.Following as following;
ghost use Rattle.md_rollback.specs.Scripts.{IsFault, IsRefusedInput, Obeys, Plays, Script};
ghost use Rattle.md_rollback.specs.Scripts as scripts;

use crate::line_fault::LineFault;
use crate::{AdvanceFault, InputFault, Line, Player, Session, read_line};
use debug_text::{ScriptOutcome, script_outcome_of};
use state_laws::Replays;
use text_lines::NumberedLines;

/// Obeys the lines of a script one after another, up to the first one that is refused.
pub fn play<R: Replays>(session: &mut Session<R>, script: &[u8]) -> ScriptOutcome<LineFault>
    ensures { (cart : List ℕ) (old : Script) → Follows cart session.old old
        → (new : Script) × Plays session.old.window (lines_of script.now) old new result × Follows cart session.new new }
{
    let mut lines = NumberedLines::of(script);
    while let Some(line) = lines.next() {
        match obey(session, line) {
            Ok(()) => {}
            Err(fault) => return script_outcome_of(lines.number, fault),
        }
    }
    ScriptOutcome::Obeyed
}

/// Obeys a line. It fails with the fault for which the line is refused, or with `None` when memory runs out.
fn obey<R: Replays>(session: &mut Session<R>, line: &[u8]) -> Result<(), Option<LineFault>>
    ensures window { session.new.window ≡ session.old.window }
    ensures obeyed { OnOk result ((cart : List ℕ) (old : Script) → Follows cart session.old old
        → (asked : Asked) × (new : Script) × (line_of line.now ≡ Some asked) × Obeys session.old.window old asked new × Follows cart session.new new) }
    ensures refused { IfErr result (λ fault. (session.new ≡ session.old) × ((cart : List ℕ) (old : Script) → Follows cart session.old old → IsFault session.old.window old line.now fault)) }
{
    match read_line(line) {
        Some(Line::Press(player, frame, buttons)) => match press(session, player, frame, buttons) {
            Ok(()) => Ok(()),
            Err(fault) => Err(Some(fault_of(fault))),
        },
        Some(Line::Advance) => go_on(session),
        None => Err(Some(LineFault::Unread)),
    }
}

fn fault_of(fault: InputFault) -> LineFault
    ensures { result ≡ scripts.fault_of fault }
{
    match fault {
        InputFault::Far { .. } => LineFault::Far,
        InputFault::Given { .. } => LineFault::Given,
        InputFault::Buttons => LineFault::Buttons,
    }
}

/// Gives a player's buttons in a frame. It fails as `Session::local` and `Session::remote` do.
fn press<R: Replays>(
    session: &mut Session<R>,
    player: Player,
    frame: u64,
    buttons: u16,
) -> Result<(), InputFault>
    ensures window { session.new.window ≡ session.old.window }
    ensures obeyed { OnOk result ((cart : List ℕ) (old : Script) → Follows cart session.old old
        → (new : Script) × Obeys session.old.window old (asked.Press player frame buttons) new × Follows cart session.new new) }
    ensures refused { IfErr result (λ fault. (session.new ≡ session.old) × ((cart : List ℕ) (old : Script) → Follows cart session.old old → IsRefusedInput old player frame buttons fault)) }
{
    match player {
        Player::Local => press_local(session, frame, buttons),
        Player::Remote => press_remote(session, frame, buttons),
    }
}

/// Gives player 1's buttons in a frame. It fails as `Session::local` does.
fn press_local<R: Replays>(
    session: &mut Session<R>,
    frame: u64,
    buttons: u16,
) -> Result<(), InputFault>
    ensures window { session.new.window ≡ session.old.window }
    ensures obeyed { OnOk result ((cart : List ℕ) (old : Script) → Follows cart session.old old
        → (new : Script) × Obeys session.old.window old (asked.Press players.Local frame buttons) new × Follows cart session.new new) }
    ensures refused { IfErr result (λ fault. (session.new ≡ session.old) × ((cart : List ℕ) (old : Script) → Follows cart session.old old → IsRefusedInput old players.Local frame buttons fault)) }
{
    match session.local(frame, buttons) {
        Ok(()) => {
            session.confirmed();
            Ok(())
        }
        Err(fault) => Err(fault),
    }
}

/// Gives player 2's buttons in a frame. It fails as `Session::remote` does.
fn press_remote<R: Replays>(
    session: &mut Session<R>,
    frame: u64,
    buttons: u16,
) -> Result<(), InputFault>
    ensures window { session.new.window ≡ session.old.window }
    ensures obeyed { OnOk result ((cart : List ℕ) (old : Script) → Follows cart session.old old
        → (new : Script) × Obeys session.old.window old (asked.Press players.Remote frame buttons) new × Follows cart session.new new) }
    ensures refused { IfErr result (λ fault. (session.new ≡ session.old) × ((cart : List ℕ) (old : Script) → Follows cart session.old old → IsRefusedInput old players.Remote frame buttons fault)) }
{
    match session.remote(frame, buttons) {
        Ok(()) => {
            session.confirmed();
            Ok(())
        }
        Err(fault) => Err(fault),
    }
}

/// Makes the next frame. It fails as `Session::advance` does, with `None` when memory runs out.
fn go_on<R: Replays>(session: &mut Session<R>) -> Result<(), Option<LineFault>>
    ensures window { session.new.window ≡ session.old.window }
    ensures obeyed { OnOk result ((cart : List ℕ) (old : Script) → Follows cart session.old old
        → (new : Script) × Obeys session.old.window old asked.Advance new × Follows cart session.new new) }
    ensures refused { IfErr result (λ fault. (session.new ≡ session.old)
        × ((cart : List ℕ) (old : Script) (line : List ℕ) → Follows cart session.old old → line_of line ≡ Some asked.Advance → IsFault session.old.window old line fault)) }
{
    session.frames();
    match session.advance() {
        Ok(()) => Ok(()),
        Err(fault) => Err(fault_at(fault)),
    }
}

fn fault_at(fault: AdvanceFault) -> Option<LineFault>
    ensures { result ≡ following.fault_at fault }
{
    match fault {
        AdvanceFault::Waiting { .. } => Some(LineFault::Waiting),
        AdvanceFault::Ended => Some(LineFault::Ended),
        AdvanceFault::NoMemory => None,
    }
}
