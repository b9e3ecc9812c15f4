ghost use Rattle.std.specs.Prelude.{◌≡◌, OnOk, OnErr, Some, None};
ghost use Rattle.std.specs.Map.{update};
ghost use Rattle.std.specs.Str.{bytes_eq};
ghost use Rattle.md_asm.specs.SeenCodes.{names_seen};

use md_word::NoMemory;
use std::alloc::Global;
use std::collections::BTreeMap;

/// The names of a source with their values.
#[derive(Drop)]
pub struct Names<'a> {
    pub(crate) values: BTreeMap<&'a [u8], u32>,
}

impl<'a> Names<'a> {
    /// No name has a value.
    pub fn new(alloc: Global) -> Self
        ensures { names_seen result ≡ (λ _. None) }
    {
        Names {
            values: BTreeMap::new(alloc),
        }
    }

    /// The value of a name, or `None` where none was defined.
    pub fn value_of(&self, name: &'a [u8]) -> Option<u32>
        ensures { result ≡ names_seen self.now name.now }
    {
        self.values.get(&name).copied()
    }

    /// Gives a name a value. It fails where memory runs out.
    pub fn define(&mut self, name: &'a [u8], value: u32) -> Result<(), NoMemory>
        ensures { OnOk result (names_seen self.new ≡ update bytes_eq (names_seen self.old) name.now (Some value)) }
    {
        self.values.insert(name, value)?;
        Ok(())
    }
}
