ghost use Rattle.std.specs.Prelude.{◌≡◌, ◌≤◌, ◌^◌, map, position, bytes_eq, vec_len, string_bytes};
ghost use Rattle.md_outer.specs.Numbers.{AreApart};

use crate::NoMemory;
use std::alloc::Global;

/// The names of the begun files, each once. The number of a file is the place of its name.
#[derive(Drop)]
pub(crate) struct Names {
    held: Vec<String>,
    ghost apart: { AreApart (map string_bytes held.items) },
    ghost few: { vec_len held ≤ 2 ^ 32 },
}

impl Names {
    ghost use Rattle.std.specs.Prelude.{[], ◌∷◌, ◌++◌, ◌<◌, None, length, IfOk, OnOk, OnErr};
    ghost use Rattle.md_outer.specs.Numbers.{number_of};
    ghost use Rattle.md_outer.specs.Names.{names_of};

    pub(crate) fn new(alloc: Global) -> Names
        ensures { names_of result ≡ [] }
    {
        Names {
            held: Vec::new(alloc),
        }
    }

    pub(crate) fn len(&self) -> usize
        ensures { result ≡ length (names_of self.now) }
    {
        self.held.len()
    }

    pub(crate) fn number_of(&self, name: &str) -> Option<u32>
        ensures { result ≡ number_of (names_of self.now) name.now }
    {
        match place_of(&self.held, name) {
            None => None,
            Some(place) => Some(place as u32),
        }
    }

    /// Gives a name the next number.
    pub(crate) fn add(&mut self, alloc: Global, name: &str) -> Result<u32, NoMemory>
        requires new { number_of (names_of self.old) name.now ≡ None }
        requires few { length (names_of self.old) < 2 ^ 32 }
        ensures number { IfOk result (λ number. number ≡ length (names_of self.old)) }
        ensures added { OnOk result (names_of self.new ≡ names_of self.old ++ name.now ∷ []) }
        ensures same { OnErr result (names_of self.new ≡ names_of self.old) }
    {
        let number = self.held.len() as u32;
        let name = String::from_str(alloc, name)?;
        self.held.reserve(1)?;
        self.held.push(name).unwrap();
        Ok(number)
    }
}

fn place_of(names: &[String], name: &str) -> Option<usize>
    ensures { result ≡ position (λ held. bytes_eq (string_bytes held) name.now) names.now }
{
    names.iter().position(|held| held.as_str() == name)
}
