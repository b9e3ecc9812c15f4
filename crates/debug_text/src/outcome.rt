ghost use Rattle.std.specs.Prelude.{◌≡◌};
ghost use Rattle.debug_text.specs.Scripts.{script_outcome_at};

/// The outcome of a script, of which a line is refused with a fault.
#[derive(Clone, Copy)]
pub enum ScriptOutcome<F> {
    /// Each of its lines was obeyed.
    Obeyed,
    /// The line of this number, from 1 on, is refused.
    Refused(u64, F),
    /// Memory ran out.
    OutOfMemory,
}

/// The outcome of a script at a line that is not obeyed. It is refused with a fault, or without one memory ran out.
pub fn script_outcome_of<F>(number: u64, fault: Option<F>) -> ScriptOutcome<F>
    ensures { result ≡ script_outcome_at number fault }
{
    match fault {
        Some(fault) => ScriptOutcome::Refused(number, fault),
        None => ScriptOutcome::OutOfMemory,
    }
}
