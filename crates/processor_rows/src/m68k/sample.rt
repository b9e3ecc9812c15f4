use crate::m68k::asked::Asked;
use crate::m68k::requests::put_access;
use arrayvec::ArrayVec;
use m68k_exec::{Finish, Progress, Step, go};
use md_word::{Regs, Request68, Spent};
use rom_header::Cart;
use row_lines::{RowError, long, parted, text_of, word};
use std::alloc::{AllocError, Global};

/// A sample of the 68000: what is before it, and what came of it.
#[derive(Drop)]
struct Sample {
    rom: [u8; 0x400],
    ram: [u8; 65536],
    before: Asked,
    after: Regs,
    /// What the accesses are answered, in their order; 0 after them.
    answers: ArrayVec<u16, 40>,
    accesses: usize,
    progress: Progress,
}

/// A cartridge whose vector n is 8000h + 2 · n, as far as the first 64 go.
fn image() -> [u8; 0x400] {
    let mut rom = [0; 0x400];
    for n in 0..64u8 {
        rom[4 * usize::from(n) + 2] = 0x80;
        rom[4 * usize::from(n) + 3] = 2 * n;
    }
    rom[0x100..0x104].copy_from_slice(b"SEGA");
    rom
}

/// The answer to an access that is wanted, where a word is one: of a read its value.
fn answer_in(token: &str) -> Result<Option<u16>, RowError> {
    let (kind, value) = token.split_once('=').unwrap_or(("", ""));
    if kind.starts_with("R:") || kind.starts_with("r:") {
        return Ok(Some(word(value)?));
    }
    let is_access = kind.contains(':') || kind == "ACK";
    Ok(if is_access { Some(0) } else { None })
}

impl Sample {
    /// Of nothing.
    fn begun(regs: &Regs) -> Sample {
        Sample {
            rom: image(),
            ram: [0; 65536],
            before: Asked::begun(regs),
            after: *regs,
            answers: ArrayVec::new(),
            accesses: 0,
            progress: Progress::new(),
        }
    }

    /// Takes what precedes the sample.
    fn set_up(&mut self, asked: &str) -> Result<(), RowError> {
        for token in asked.split_whitespace() {
            self.take(token)?;
        }
        let mut at = 0x200_u32;
        for word in self.before.words {
            self.put_word(at, word);
            at = at.wrapping_add(2);
        }
        Ok(())
    }

    fn take(&mut self, token: &str) -> Result<(), RowError> {
        match token.strip_prefix('@') {
            Some(memory) => self.take_memory(memory),
            None => self.before.take(token),
        }
    }

    fn take_memory(&mut self, memory: &str) -> Result<(), RowError> {
        let (at, value) = parted(memory, '=')?;
        self.put_word(long(at)?, word(value)?);
        Ok(())
    }

    /// A word in work RAM or, below it, in the cartridge.
    fn put_word(&mut self, at: u32, value: u16) {
        let [high, low] = value.to_be_bytes();
        let place = (at % 0x1_0000) as usize;
        if at >= 0xe0_0000 && place < 0xffff {
            self.ram[place] = high;
            self.ram[place + 1] = low;
        } else if place < 0x3ff {
            self.rom[place] = high;
            self.rom[place + 1] = low;
        }
    }

    /// Takes the answers of the accesses that are wanted: of a read its value.
    fn take_answers(&mut self, wanted: &str) -> Result<(), RowError> {
        for token in wanted.split_whitespace() {
            self.take_answer(answer_in(token)?);
        }
        Ok(())
    }

    fn take_answer(&mut self, answer: Option<u16>) {
        if let Some(answer) = answer
            && !self.answers.is_full()
        {
            self.answers.push(answer);
        }
    }

    /// Runs it with no answer, one, and so on, and prints its accesses.
    fn run(&mut self, cart: &Cart, text: &mut String) -> Result<Finish, RowError> {
        let mut given = ArrayVec::new();
        let mut step = Step::Need(Request68::Ack(0));
        self.after = self.before.regs;
        for k in 0..33usize {
            go(
                &mut self.after,
                cart,
                &self.ram,
                &given,
                self.before.cause,
                &mut self.progress,
                &mut step,
            );
            match step {
                Step::Done(finish) => return Ok(finish),
                Step::Need(request) => {
                    let answer = self.answers.as_slice().get(k).copied().unwrap_or(0);
                    put_access(text, request, answer)?;
                    if !given.is_full() {
                        given.push(answer);
                    }
                }
            }
            self.accesses = k + 1;
        }
        Err(RowError::NoSuchLine)
    }

    fn finish(&mut self, alloc: Global, text: &mut String) -> Result<Finish, RowError> {
        match Cart::accept(alloc, self.rom.to_vec(alloc)?) {
            Ok(cart) => self.run(&cart, text),
            Err(_) => Err(RowError::Memory),
        }
    }

    /// Runs what is asked, and prints what came of it.
    fn tell(
        &mut self,
        alloc: Global,
        asked: &str,
        wanted: &str,
        text: &mut String,
    ) -> Result<(), RowError> {
        self.set_up(asked)?;
        self.take_answers(wanted)?;
        let finish = self.finish(alloc, text)?;
        self.put(text, &finish)?;
        if text.is_empty() {
            text.push_str("unchanged")?;
        }
        Ok(())
    }

    fn put(&self, text: &mut String, finish: &Finish) -> Result<(), AllocError> {
        put_writes(text, self.progress.writes.as_slice())?;
        self.put_registers(text)?;
        put_spent(text, &finish.spent, self.accesses)?;
        put_marks(text, finish)
    }

    fn put_registers(&self, text: &mut String) -> Result<(), AllocError> {
        let before = &self.before.regs;
        let after = &self.after;
        put_changed(text, 'D', &before.d, &after.d)?;
        put_changed(text, 'A', &before.a, &after.a)?;
        let next = 0x200 + 2 * (self.before.count % 8) as u32;
        put_register(text, "US", before.usp, after.usp)?;
        put_register(text, "SS", before.ssp, after.ssp)?;
        put_register(text, "PC", next, after.pc)?;
        put_status(text, before.sr, after.sr)
    }
}

fn put_status(text: &mut String, before: u16, after: u16) -> Result<(), AllocError> {
    if before != after {
        write!(text, " SR={after:04X}")?;
    }
    Ok(())
}

fn put_register(text: &mut String, name: &str, before: u32, after: u32) -> Result<(), AllocError> {
    if before != after {
        write!(text, " {name}={after:08X}")?;
    }
    Ok(())
}

fn put_numbered(
    text: &mut String,
    kind: char,
    number: usize,
    before: u32,
    after: u32,
) -> Result<(), AllocError> {
    if before != after {
        write!(text, " {kind}{number}={after:08X}")?;
    }
    Ok(())
}

fn put_changed(
    text: &mut String,
    kind: char,
    before: &[u32],
    after: &[u32],
) -> Result<(), AllocError> {
    for n in 0..before.len().min(after.len()) {
        put_numbered(text, kind, n, before[n], after[n])?;
    }
    Ok(())
}

/// Appends private writes in their order, each run of bytes with its first address.
fn put_writes(text: &mut String, writes: &[(u32, u8)]) -> Result<(), AllocError> {
    let mut next = 0;
    for &(at, value) in writes {
        if at == next {
            write!(text, "{value:02X}")?;
        } else {
            write!(text, " @{at:06X}={value:02X}")?;
        }
        next = at.wrapping_add(1);
    }
    Ok(())
}

/// Appends what was spent; the accesses only where their count is another.
fn put_spent(text: &mut String, spent: &Spent, accesses: usize) -> Result<(), AllocError> {
    if usize::from(spent.accesses) != accesses {
        write!(text, " ACCESSES={}", spent.accesses)?;
    }
    put_mark(text, spent.taken, " TAKEN")?;
    put_mark(text, spent.expired, " EXPIRED")?;
    put_digit(text, 'N', spent.count)?;
    put_digit(text, 'E', spent.cause)
}

fn put_digit(text: &mut String, name: char, value: u8) -> Result<(), AllocError> {
    if value != 0 {
        write!(text, " {name}={value:X}")?;
    }
    Ok(())
}

fn put_mark(text: &mut String, is_set: bool, mark: &str) -> Result<(), AllocError> {
    text.push_str(if is_set { mark } else { "" })
}

fn put_marks(text: &mut String, finish: &Finish) -> Result<(), AllocError> {
    put_mark(text, finish.stopped, " STOP")?;
    put_mark(text, finish.halted, " HALT")?;
    put_mark(text, finish.trace, " TRACE")
}

/// What comes of a sample: shared accesses, private writes, registers that changed, and what was spent.
pub fn sampled(alloc: Global, regs: &Regs, asked: &str, wanted: &str) -> Result<String, RowError> {
    let mut sample = Sample::begun(regs);
    let mut text = String::new(alloc);
    sample.tell(alloc, asked, wanted, &mut text)?;
    text_of(alloc, text.trim_start())
}
