ghost use Rattle.std.specs.Prelude.{◌≡◌, ◌≤◌, IfErr, IfOk, OnOk, length, map, vec_len};
ghost use Rattle.text_lines.specs.Lines.{lines_of};
ghost use Rattle.md_asm.specs.SeenCodes.{names_seen};
ghost use Rattle.md_asm.specs.Assembly as meaning;
ghost use Rattle.md_asm.specs.Kept.{AreKept, IsPass};
ghost use Rattle.md_asm.specs.Places as places;
ghost use Rattle.md_asm.specs.Rounds as rounds;
ghost use Rattle.md_asm.specs.Seen.{IsFault, IsFaulty, IsRefused, image_seen, lines_seen, round_seen, slot_seen};

use crate::Names;
use crate::assembled::Assembled;
use crate::cells::{Cells, PLACES};
use crate::entry::Entry;
use crate::fault::AsmFault;
use crate::kind::number;
use crate::pass::Pass;
use crate::patching::patch;
use crate::placed::Placed;
use crate::processor::Processor;
use md_asm_text::Body;
use md_word::NoMemory;
use std::alloc::Global;
use text_lines::first_line;

/// A pass that has read no line. It fails where memory runs out.
fn start<'a>(alloc: Global) -> Result<Pass<'a>, NoMemory>
    ensures seen { IfOk result (λ pass. round_seen pass ≡ rounds.start) }
    ensures pass { IfOk result (λ pass. IsPass pass) }
{
    let cells = Cells::new(alloc)?;
    Ok(Pass {
        place: 0,
        processor: Processor::Main,
        names: Names::new(alloc),
        cells,
        entries: Vec::new(alloc),
        end: 0,
    })
}

/// Reads the lines of a source into a pass. It fails at the first line that is at fault, or where memory runs out.
#[tactic(auto, unfolding(crate::specs::Rounds::round_one))]
fn read_lines<'a>(alloc: Global, pass: &mut Pass<'a>, source: &'a [u8]) -> Result<(), AsmFault>
    requires pass { IsPass pass.old }
    requires short { length source.now ≤ meaning.source_limit }
    ensures read { OnOk result (rounds.round_one (round_seen pass.old) 1 (lines_of source.now) ≡ rounds.Read (round_seen pass.new)) }
    ensures refused { IfErr result (λ fault. IsRefused fault (rounds.round_one (round_seen pass.old) 1 (lines_of source.now))) }
    ensures pass { OnOk result (IsPass pass.new) }
{
    let mut line = 1;
    let mut rest = source;
    while !rest.is_empty() {
        let (text, following) = first_line(rest);
        if let Some(kind) = pass.read(alloc, line, text)? {
            return Err(AsmFault::Line {
                line,
                kind: number(kind),
            });
        }
        line += 1;
        rest = following;
    }
    Ok(())
}

/// A memory of so many bytes, all of them 0. It fails where memory runs out.
#[tactic(auto, unfolding(crate::specs::Places::zeros))]
fn zeros(alloc: Global, count: usize) -> Result<Vec<u8>, NoMemory>
    ensures items { IfOk result (λ memory. memory.items ≡ places.zeros count) }
    ensures long { IfOk result (λ memory. vec_len memory ≡ count) }
{
    vec![in alloc; 0; count]
}

/// A memory with the bytes of all lines. It fails at the first that has none, or where memory runs out.
#[tactic(auto, unfolding(crate::specs::Rounds::round_two))]
fn written<'a>(alloc: Global, names: &Names<'a>, entries: &[Entry<'a>]) -> Result<Vec<u8>, AsmFault>
    requires { AreKept entries.now }
    ensures whole { IfOk result (λ memory. rounds.round_two (names_seen names.now) places.blank (map slot_seen entries.now) ≡ rounds.Whole memory.items) }
    ensures faulty { IfErr result (λ fault. IsFaulty fault (rounds.round_two (names_seen names.now) places.blank (map slot_seen entries.now))) }
{
    let mut memory = zeros(alloc, PLACES)?;
    let mut rest = entries;
    while let [entry, after @ ..] = rest {
        if let Some(kind) = patch(alloc, names, entry, memory.as_mut_slice())? {
            return Err(AsmFault::Line {
                line: entry.line,
                kind: number(kind),
            });
        }
        rest = after;
    }
    Ok(memory)
}

fn is_instruction(body: Body) -> bool
    ensures { result ≡ meaning.is_instruction body }
{
    match body {
        Body::Instruction => true,
        Body::Words
        | Body::Bytes
        | Body::Nothing
        | Body::Org(_)
        | Body::Main
        | Body::Sub(_)
        | Body::Bad => false,
    }
}

/// Where the instructions are. It fails where memory runs out.
#[tactic(auto, unfolding(crate::specs::Assembly::places_of))]
fn places_of(alloc: Global, entries: &[Entry<'_>]) -> Result<Vec<Placed>, NoMemory>
    ensures { IfOk result (λ lines. lines.items ≡ meaning.places_of (map slot_seen entries.now)) }
{
    let mut lines = Vec::new(alloc);
    let mut rest = entries;
    while let [entry, after @ ..] = rest {
        if is_instruction(entry.body) {
            lines.push(Placed {
                place: entry.place,
                address: entry.address,
                z80: entry.z80,
            })?;
        }
        rest = after;
    }
    Ok(lines)
}

/// Assembles a source of at most 1,048,576 bytes. Its lines are read in one pass; those that use names are patched after
/// it. It fails at the first line that is at fault, with the least kind of its faults, or where memory runs out.
#[tactic(auto, unfolding(crate::specs::Assembly::assembly))]
pub fn assemble(alloc: Global, source: &[u8]) -> Result<Assembled, AsmFault>
    requires { length source.now ≤ meaning.source_limit }
    ensures done { IfOk result (λ done. meaning.assembly source.now ≡ meaning.Done (image_seen done) (lines_seen done)) }
    ensures fault { IfErr result (λ fault. IsFault fault (meaning.assembly source.now)) }
{
    let mut pass = start(alloc)?;
    read_lines(alloc, &mut pass, source)?;
    let mut image = written(alloc, &pass.names, pass.entries.as_slice())?;
    image.truncate(pass.end as usize);
    let lines = places_of(alloc, pass.entries.as_slice())?;
    Ok(Assembled { image, lines })
}
