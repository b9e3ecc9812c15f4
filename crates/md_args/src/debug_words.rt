/// What the words of a session of the debugger ask for.
#[derive(Clone, Copy)]
pub struct DebugWords<'a> {
    /// The name of the cartridge.
    pub rom: &'a str,
    /// The name of the script, another one.
    pub script: &'a str,
}
