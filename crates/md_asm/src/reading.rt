ghost use Rattle.std.specs.Prelude.{◌≡◌, ◌+◌, ◌≤◌, IfOk, OnOk, true, option_map, vec_len};
ghost use Rattle.md_asm_text.specs.Tokens as texts;
ghost use Rattle.md_asm_text.specs.Lines.{line_of};
ghost use Rattle.md_asm_text.specs.Seen.{line_seen};
ghost use Rattle.md_asm.specs.SeenCodes.{names_seen};
ghost use Rattle.md_asm.specs.Contents as contents;
ghost use Rattle.md_asm.specs.Kept.{IsKnown, IsPass};
ghost use Rattle.md_asm.specs.Places as places;
ghost use Rattle.md_asm.specs.Rounds as rounds;
ghost use Rattle.md_asm.specs.Seen.{round_seen, step_seen};

use crate::Names;
use crate::cells::PLACES;
use crate::entry::Entry;
use crate::kind::Kind;
use crate::measuring::{Measured, measure};
use crate::pass::Pass;
use crate::processor::{Processor, address, is_sub};
use md_asm_text::{Body, Line, read_line};
use md_word::NoMemory;
use std::alloc::Global;

/// Whether a line has bytes.
fn has_bytes(body: Body) -> bool
    ensures { result ≡ rounds.has_bytes body }
{
    match body {
        Body::Words | Body::Bytes | Body::Instruction => true,
        Body::Nothing | Body::Org(_) | Body::Main | Body::Sub(_) | Body::Bad => false,
    }
}

/// Whether a line is allowed at even places alone.
fn wants_even(z80: bool, body: Body) -> bool
    ensures { result ≡ rounds.wants_even z80 body }
{
    match body {
        Body::Words => true,
        Body::Instruction => !z80,
        Body::Bytes | Body::Nothing | Body::Org(_) | Body::Main | Body::Sub(_) | Body::Bad => false,
    }
}

/// Whether a label was defined before.
fn is_twice<'a>(names: &Names<'a>, label: Option<&'a [u8]>) -> bool
    ensures { result ≡ rounds.is_twice (names_seen names.now) (option_map (λ name. name.now) label.entry) }
{
    match label {
        Some(name) => names.value_of(name).is_some(),
        None => false,
    }
}

/// Whether the last of so many places is too large.
fn is_too_large(place: u32, long: usize) -> bool
    ensures { result ≡ places.is_too_large place long }
{
    long > PLACES || place as usize > PLACES - long
}

/// The place after a line.
fn place_after(place: u32, body: Body, long: usize) -> u32
    requires { rounds.has_bytes body ≡ true → place + long ≤ places.image_limit }
    ensures { result ≡ rounds.place_after place body long }
{
    match body {
        Body::Org(at) => at,
        Body::Words | Body::Bytes | Body::Instruction => (place as usize + long) as u32,
        Body::Nothing | Body::Main | Body::Sub(_) | Body::Bad => place,
    }
}

/// The processor after a line.
fn processor_after(processor: Processor, place: u32, body: Body) -> Processor
    ensures { result ≡ rounds.processor_after processor place body }
{
    match body {
        Body::Main => Processor::Main,
        Body::Sub(at) => Processor::Sub(at, place),
        Body::Org(_) | Body::Words | Body::Bytes | Body::Instruction | Body::Nothing | Body::Bad =>
            { processor }
    }
}

impl<'a> Pass<'a> {
    /// The least kind of fault of a line that has a form, of this length, or `None` without one.
    fn fault_of(&self, line: &Line<'a>, long: usize, unfit: bool) -> Option<Kind>
        requires whole { vec_len self.now.cells.marks ≡ places.image_limit }
        requires unfit { unfit ≡ contents.is_unfit (places.is_sub self.now.processor) line.now.body (texts.tokens line.now.text.now) }
        ensures { result ≡ rounds.fault_of (round_seen self.now) (line_seen line.now) long }
    {
        if unfit {
            return Some(Kind::BadNumber);
        }
        if is_twice(&self.names, line.label) {
            return Some(Kind::Twice);
        }
        if wants_even(is_sub(self.processor), line.body) && self.place % 2 == 1 {
            return Some(Kind::Odd);
        }
        if self.cells.any(self.place, long) {
            return Some(Kind::Overlap);
        }
        if has_bytes(line.body) && is_too_large(self.place, long) {
            return Some(Kind::TooLarge);
        }
        None
    }

    /// Keeps a line that has bytes. It fails where memory runs out.
    fn keep(
        &mut self,
        number: u32,
        line: &Line<'a>,
        long: usize,
        bytes: Option<Vec<u8>>,
    ) -> Result<(), NoMemory>
        requires pass { IsPass self.old }
        requires known { IsKnown (round_seen self.old) (line_seen line.now) long bytes }
        requires within { self.old.place + long ≤ places.image_limit }
        ensures seen { OnOk result (round_seen self.new ≡ rounds.kept (round_seen self.old) number (line_seen line.now) long) }
        ensures pass { OnOk result (IsPass self.new) }
    {
        let z80 = is_sub(self.processor);
        let at = address(self.processor, self.place);
        self.entries.push(Entry {
            line: number,
            place: self.place,
            address: at,
            long,
            z80,
            body: line.body,
            text: line.text,
            bytes,
        })?;
        self.cells.mark(self.place, long);
        self.end = self.end.max((self.place as usize + long) as u32);
        Ok(())
    }

    /// Gives a label its value. It fails where memory runs out.
    fn label(&mut self, label: Option<&'a [u8]>) -> Result<(), NoMemory>
        requires { IsPass self.old }
        ensures seen { OnOk result (round_seen self.new ≡ rounds.labelled (round_seen self.old) (option_map (λ name. name.now) label.entry)) }
        ensures pass { OnOk result (IsPass self.new) }
    {
        if let Some(name) = label {
            self.names
                .define(name, address(self.processor, self.place))?;
        }
        Ok(())
    }

    /// Continues after a line. It fails where memory runs out.
    fn go_on(
        &mut self,
        number: u32,
        line: &Line<'a>,
        long: usize,
        bytes: Option<Vec<u8>>,
    ) -> Result<(), NoMemory>
        requires pass { IsPass self.old }
        requires known { IsKnown (round_seen self.old) (line_seen line.now) long bytes }
        requires within { rounds.has_bytes line.now.body ≡ true → self.old.place + long ≤ places.image_limit }
        ensures seen { OnOk result (round_seen self.new ≡ rounds.following (round_seen self.old) number (line_seen line.now) long) }
        ensures pass { OnOk result (IsPass self.new) }
    {
        self.label(line.label)?;
        if has_bytes(line.body) {
            self.keep(number, line, long, bytes)?;
        }
        self.processor = processor_after(self.processor, self.place, line.body);
        self.place = place_after(self.place, line.body, long);
        Ok(())
    }

    /// Reads a line of this number: `None`, or its least kind of fault. It fails where memory runs out.
    pub(crate) fn read(
        &mut self,
        alloc: Global,
        number: u32,
        text: &'a [u8],
    ) -> Result<Option<Kind>, NoMemory>
        requires { IsPass self.old }
        ensures seen { IfOk result (λ fault. step_seen fault self.new ≡ rounds.line_step (round_seen self.old) number (line_of text.now)) }
        ensures pass { OnOk result (IsPass self.new) }
    {
        let line = read_line(alloc, text)?;
        let z80 = is_sub(self.processor);
        let at = address(self.processor, self.place);
        let found = measure(alloc, z80, line.body, line.tokens.as_slice(), at)?;
        let Some(measured) = found else {
            return Ok(Some(Kind::BadLine));
        };
        let Measured { long, unfit, bytes } = measured;
        if let Some(kind) = self.fault_of(&line, long, unfit) {
            return Ok(Some(kind));
        }
        self.go_on(number, &line, long, bytes)?;
        Ok(None)
    }
}
