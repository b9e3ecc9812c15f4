ghost use Rattle.std.specs.Prelude.{◌≡◌, ℕ, ◌≤◌, ◌%◌, List, length, ◌⊎◌, Some, IfOk, IfErr, IfSome};
ghost use Rattle.rom_header.specs.Cartridge.{IsImage, fault_of, has_magic, image};
ghost use Rattle.rom_header.specs.Header as header;

use crate::header::header_lines;
use std::alloc::{AllocError, Global};
use std::marker::Model;

/// The least length of a cartridge's file, in bytes.
pub const LEAST: usize = 512;

/// The greatest length of a cartridge's file, in bytes: 4 MiB.
pub const GREATEST: usize = 4_194_304;

/// Why a file is no cartridge. Source: this project's profile.
#[derive(Clone, Copy, PartialEq, Eq, Debug)]
pub enum CartFault {
    /// It has fewer than 512 bytes.
    Short,
    /// It has more than 4 MiB.
    Long,
    /// The text `SEGA` is neither at 100h nor at 101h.
    NoMark,
    /// A byte is to be added to make the length even, and memory is out.
    NoMemory,
}

/// An accepted cartridge. Contracts see its image: the bytes of the file, with one 00 added where
/// their number is odd.
#[derive(Drop)]
pub struct Cart {
    bytes: Vec<u8>,
}

/// Whether the magic of the console is where its boot code looks for it.
fn has_magic(bytes: &[u8]) -> bool
    requires { 512 ≤ length bytes.now }
    ensures { result ≡ has_magic bytes.now }
{
    &bytes[0x100..0x104] == b"SEGA".as_slice() || &bytes[0x101..0x105] == b"SEGA".as_slice()
}

impl Model for Cart {
    ghost Value = { List ℕ };

    ghost view = { λ c. c.bytes.items };

    ghost invariant = { λ c. IsImage c.bytes.items };
}

impl Cart {
    /// Accepts the bytes of a cartridge's file.
    ///
    /// It fails where they are too short, else where they are too long, else where they have no
    /// magic, and else where their number is odd and memory for one more byte is out.
    pub fn accept(_alloc: Global, mut bytes: Vec<u8>) -> Result<Cart, CartFault>
        ensures refused { IfSome (fault_of bytes.items) (λ fault. result ≡ Err fault) }
        ensures accepted { IfOk result (λ cart. (fault_of bytes.items ≡ None) × (cart ≡ image bytes.items)) }
        ensures fault { IfErr result (λ fault. (fault_of bytes.items ≡ Some fault) ⊎ (fault ≡ CartFault.NoMemory)) }
        ensures memory { result ≡ Err CartFault.NoMemory → length bytes.items % 2 ≡ 1 }
    {
        if bytes.len() < LEAST {
            return Err(CartFault::Short);
        }
        if bytes.len() > GREATEST {
            return Err(CartFault::Long);
        }
        if !has_magic(bytes.as_slice()) {
            return Err(CartFault::NoMark);
        }
        if bytes.len() % 2 == 1 && bytes.push(0).is_err() {
            return Err(CartFault::NoMemory);
        }
        Ok(Cart { bytes })
    }

    /// The padded image, of even length.
    pub fn bytes(&self) -> &[u8]
        ensures value { result.now ≡ self.now }
        ensures image { IsImage self.now }
    {
        self.bytes.as_slice()
    }

    /// The lines that print what the header says: `domestic: `, `overseas: `, `serial: ` and `region: `,
    /// each with its field, then `size: ` with the image's bytes, and `checksum: `. That has the word that is
    /// kept at 18Eh and the sum of the words from 200h to the end modulo 65,536; words are big-endian. After
    /// them comes `ok` where they are the same, else `differs`. A field is shown without the bytes 00h and 20h at
    /// its end, and with a dot for each byte outside 20h to 7Eh. It fails only when memory is out.
    pub fn info(&self, alloc: Global) -> Result<Vec<u8>, AllocError>
        ensures { IfOk result (λ text. text.items ≡ header.header_lines self.now) }
    {
        header_lines(alloc, self.bytes())
    }
}
