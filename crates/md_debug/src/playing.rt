ghost use Rattle.std.specs.Prelude.{◌≡◌, IfOk, OnErr};
ghost use Rattle.md_debug.specs.Opened.{PutsScript, StopsScript, images_with, opened};

use crate::{DebugFault, Session, play};
use debug_text::ScriptOutcome;
use md_outer::{Failed, Sink};
use md_pads::Recording;
use md_word::NoMemory;
use rom_header::Cart;
use state_laws::StateImages;
use state_laws::image_laws::runs_have_images;
use std::alloc::Global;
use std::sync::Arc;

/// A session of the debugger at power-on of these images, whose state is kept. It fails only when memory runs
/// out.
pub fn open(alloc: Global, images: StateImages) -> Result<Session<StateImages>, NoMemory>
    ensures { IfOk result (λ session. session ≡ opened images) }
{
    runs_have_images();
    let machine = images.first_machine(alloc)?;
    Session::make(alloc, machine, images)
}

/// The images of the machines of a cartridge on NTSC, of which no button is pressed. It fails only when memory
/// runs out.
fn images_with(alloc: Global, cart: Cart) -> Result<StateImages, NoMemory>
    ensures { IfOk result (λ images. images ≡ images_with cart) }
{
    let cart = Arc::new(alloc, cart)?;
    let recording = Arc::new(alloc, Recording::empty(alloc))?;
    StateImages::make(alloc, cart, recording, false)
}

/// The session of the debugger at power-on of a cartridge. It fails only when memory runs out.
fn session_with(alloc: Global, cart: Cart) -> Result<Session<StateImages>, NoMemory>
    ensures { IfOk result (λ session. session ≡ opened (images_with cart)) }
{
    let images = images_with(alloc, cart)?;
    open(alloc, images)
}

/// Obeys the lines of a script one after another at power-on of a cartridge, up to the first one that is
/// refused. The reply to each is written before the next one is obeyed. It fails where a reply cannot be
/// written; then no further line is obeyed.
pub fn play_script<S: Sink>(
    alloc: Global,
    cart: Cart,
    script: &[u8],
    out: &mut S,
) -> Result<ScriptOutcome<DebugFault>, Failed>
    ensures ends { IfOk result (λ script_outcome. PutsScript S.observable cart script.now (S.state out.old) (S.state out.new) script_outcome) }
    ensures stops { OnErr result (StopsScript S.observable cart script.now (S.state out.old) (S.state out.new)) }
{
    match session_with(alloc, cart) {
        Ok(session) => played(session, script, out),
        Err(NoMemory) => Ok(ScriptOutcome::OutOfMemory),
    }
}

/// Plays it in a session. It fails where a reply cannot be written.
fn played<S: Sink>(
    session: Session<StateImages>,
    script: &[u8],
    out: &mut S,
) -> Result<ScriptOutcome<DebugFault>, Failed>
    ensures ends { (cart : _) → session ≡ opened (images_with cart) → IfOk result (λ script_outcome. PutsScript S.observable cart script.now (S.state out.old) (S.state out.new) script_outcome) }
    ensures stops { (cart : _) → session ≡ opened (images_with cart) → OnErr result (StopsScript S.observable cart script.now (S.state out.old) (S.state out.new)) }
{
    let mut session = session;
    play(&mut session, script, out)
}
