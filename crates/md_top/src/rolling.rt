ghost use Rattle.std.specs.Prelude.{◌≡◌, ◌≤◌};
ghost use Rattle.md_args.specs.Shown.{shown_rolling};
ghost use Rattle.md_outer.specs.Outside.{PutsText};
ghost use Rattle.md_rollback.specs.Rolls.{CompletesWith};
ghost use Rattle.md_top.specs.Rollings.{RollEnds, completion_outcome, counts_lines, inputs_line, line_fault_text, rolled_lines};

use crate::command_outcome::CommandOutcome;
use crate::put::put_three;
use crate::reading::read_cart;
use crate::report::put_number;
use crate::report_demo::put_digest_line;
use itoa::Buffer;
use md_args::{Input, RollbackWords};
use md_outer::{Depot, Failed, Fetch, Sink};
use md_rollback::{Completion, LineFault, Rolled, run_script};
use rom_header::Cart;
use std::alloc::Global;
use std::sync::Arc;

/// The greatest length of what two players press.
const LONGEST_INPUTS: u64 = 4_194_304;

/// Obeys the lines of what two players press, which the words name, in a session at power-on of the cartridge.
pub(crate) fn roll_cart<D: Depot>(
    alloc: Global,
    words: &RollbackWords<'_>,
    depot: &mut D,
) -> CommandOutcome
    ensures cause { RollEnds D.observable (shown_rolling words.now) (D.state depot.old) (D.state depot.new) result }
    ensures files { D.observable → (D.state depot.new).files ≡ (D.state depot.old).files }
{
    let cart = match read_cart(alloc, words.rom, depot) {
        Ok(cart) => cart,
        Err(command_outcome) => return command_outcome,
    };
    match depot.fetch(alloc, words.inputs, LONGEST_INPUTS) {
        Ok(inputs) => ended(outcome(alloc, cart, words.window, inputs.as_slice())),
        Err(Fetch::Failed) => CommandOutcome::ReadFault(Input::Script),
        Err(Fetch::TooLong) => CommandOutcome::TooLong(Input::Script),
        Err(Fetch::NoMemory) => CommandOutcome::Memory,
    }
}

/// What the lines result in.
fn outcome(alloc: Global, cart: Cart, window: u32, inputs: &[u8]) -> Completion
    requires some { 1 ≤ window }
    requires most { window ≤ 16 }
    ensures { CompletesWith cart window inputs.now result }
{
    match Arc::new(alloc, cart) {
        Ok(cart) => run_script(alloc, cart, window, inputs),
        Err(_) => Completion::NoMemory,
    }
}

/// The same, as an outcome.
fn ended(completion: Completion) -> CommandOutcome
    ensures { result ≡ completion_outcome completion }
{
    match completion {
        Completion::Done(rolled) => CommandOutcome::RolledBack(rolled),
        Completion::Refused(line, fault) => CommandOutcome::LineRefused { line, fault },
        Completion::NoMemory => CommandOutcome::Memory,
    }
}

/// Puts what a session resulted in.
pub(crate) fn put_rolled<S: Sink>(out: &mut S, rolled: &Rolled) -> Result<(), Failed>
    ensures { PutsText S.observable (rolled_lines rolled.now) (S.state out.old) (S.state out.new) result }
{
    match put_rolled_counts(out, rolled) {
        Ok(()) => put_digest_line(out, "state sha256 ", &rolled.digest),
        Err(failed) => Err(failed),
    }
}

/// Puts how many frames were made, and how many are confirmed.
fn put_rolled_counts<S: Sink>(out: &mut S, rolled: &Rolled) -> Result<(), Failed>
    ensures { PutsText S.observable (counts_lines rolled.now) (S.state out.old) (S.state out.new) result }
{
    match put_number(out, "frames ", rolled.frames) {
        Ok(()) => put_number(out, "confirmed ", rolled.confirmed),
        Err(failed) => Err(failed),
    }
}

/// Puts the line of a refusal of what two players press.
pub(crate) fn put_inputs_line<S: Sink>(
    out: &mut S,
    line: u64,
    fault: LineFault,
) -> Result<(), Failed>
    ensures { PutsText S.observable (inputs_line line fault) (S.state out.old) (S.state out.new) result }
{
    let mut digits = Buffer::new();
    put_three(
        out,
        "refused: inputs line ",
        digits.format(line).as_bytes(),
        fault_text(fault),
    )
}

/// The end of such a line.
fn fault_text(fault: LineFault) -> &'static str
    ensures { result.now ≡ line_fault_text fault }
{
    match fault {
        LineFault::Unread => ": unread\n",
        LineFault::Far => ": far\n",
        LineFault::Given => ": given\n",
        LineFault::Buttons => ": buttons\n",
        LineFault::Waiting => ": waiting\n",
        LineFault::Ended => ": ended\n",
    }
}
