ghost use Rattle.std.specs.Prelude.{◌≡◌, ◌++◌, [], None, OnOk, IfOk, length};
ghost use Rattle.rom_header.specs.Cartridge.{fault_of, image};
ghost use Rattle.md_demo.specs.Demo as meaning;

use crate::program::PROGRAM;
use crate::push::{fill_to, push_longs, push_stream, push_words};
use md_word::NoMemory;
use rand_pcg::Lcg64Xsh32;
use std::alloc::Global;

/// The bytes of a demonstration cartridge: 1 MiB.
pub const LENGTH: usize = 1_048_576;

/// Where the words of the generator begin.
const DATA: usize = 0x1000;

/// How many there are: they fill the cartridge to its end.
const WORDS: u32 = 261_120;

/// The demonstration cartridge of a number. Any number has one, and each is an accepted cartridge of
/// even length. It fails only when memory is out.
#[tactic(auto, unfolding(crate::specs::Demo::demo_cart, crate::specs::Demo::stream))]
pub fn demo_cart(alloc: Global, number: u64) -> Result<Vec<u8>, NoMemory>
    ensures bytes { IfOk result (λ bytes. bytes.items ≡ meaning.demo_cart number) }
    ensures length { IfOk result (λ bytes. length bytes.items ≡ LENGTH) }
    ensures accepted { IfOk result (λ bytes. fault_of bytes.items ≡ None) }
    ensures image { IfOk result (λ bytes. image bytes.items ≡ bytes.items) }
{
    let mut bytes = Vec::with_capacity(alloc, LENGTH)?;
    push_head(&mut bytes)?;
    push_stream(&mut bytes, Lcg64Xsh32::new(number, 0), WORDS)?;
    Ok(bytes)
}

/// Appends to no bytes what is below 1000h.
#[tactic(auto, unfolding(crate::specs::Demo::head, crate::specs::Demo::program))]
fn push_head(bytes: &mut Vec<u8>) -> Result<(), NoMemory>
    requires { bytes.old.items ≡ [] }
    ensures { OnOk result (bytes.new.items ≡ meaning.head) }
{
    push_vectors(bytes)?;
    bytes.extend_from_slice(b"SEGA")?;
    fill_to(bytes, 0x200)?;
    push_words(bytes, &PROGRAM)?;
    fill_to(bytes, 0x280)?;
    push_words(bytes, &[0x4e73])?;
    fill_to(bytes, DATA)
}

/// Appends to no bytes the vectors: the stack pointer and the program's start, and for all others the
/// handler.
#[tactic(auto, unfolding(crate::specs::Demo::vectors))]
fn push_vectors(bytes: &mut Vec<u8>) -> Result<(), NoMemory>
    requires { bytes.old.items ≡ [] }
    ensures { OnOk result (bytes.new.items ≡ meaning.vectors) }
{
    push_longs(bytes, 0x00ff_f000, 1)?;
    push_longs(bytes, 0x200, 1)?;
    push_longs(bytes, 0x280, 62)
}
