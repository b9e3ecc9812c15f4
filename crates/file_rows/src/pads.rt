// Recordings, and the port that a pad hangs on.
use crate::fixture::{reported, yes_or_no};
use bitflags::Flags;
use md_pads::{Buttons, PadPort, RecFault, Recording};
use row_lines::{RowError, byte, first_word, number, parted, word};
use std::alloc::Global;

/// The greatest cycle that a port takes.
const MOST: u64 = 1 << 50;

/// The port of a row, where it has one.
#[derive(Drop)]
pub(crate) struct Pads {
    port: Option<PadPort>,
}

/// The recording of bytes that are one.
fn recording_of(alloc: Global, file: &[u8]) -> Result<Recording, RowError> {
    match Recording::read(alloc, file) {
        Ok(recording) => Ok(recording),
        Err(_) => Err(RowError::NoSuchName),
    }
}

/// The place at which bytes are refused.
fn place_of(alloc: Global, file: &[u8]) -> Option<u64> {
    match Recording::read(alloc, file) {
        Err(RecFault::Form { place }) => Some(place),
        _ => None,
    }
}

/// Whether bytes are a recording, `yes`, or from which place on they are none.
fn read(alloc: Global, file: &[u8]) -> Result<String, RowError> {
    match Recording::read(alloc, file) {
        Ok(_) => reported(alloc, "yes"),
        Err(RecFault::Form { place }) => Ok(format!(in alloc; "wrong at {place}")?),
        Err(RecFault::NoMemory) => Err(RowError::Memory),
    }
}

/// How many of the bytes' fronts, each shorter than all of them, are refused at their end.
fn fronts(alloc: Global, file: &[u8]) -> Result<String, RowError> {
    let mut refused = 0usize;
    for length in 0..file.len() {
        let place = place_of(alloc, file.get(..length).unwrap_or(file));
        if place == Some(length as u64) {
            refused = refused.wrapping_add(1);
        }
    }
    Ok(format!(in alloc; "{refused}")?)
}

/// The buttons of both pads in a frame.
fn frame(alloc: Global, file: &[u8], text: &str) -> Result<String, RowError> {
    let (first, second) = recording_of(alloc, file)?.pads_at(number(text)?);
    Ok(format!(in alloc; "{first:04X} {second:04X}")?)
}

/// The buttons of both pads in a frame of the empty recording.
fn frame_of_none(alloc: Global, text: &str) -> Result<String, RowError> {
    let (first, second) = Recording::empty(alloc).pads_at(number(text)?);
    Ok(format!(in alloc; "{first:04X} {second:04X}")?)
}

/// Whether a recording is written as it is read.
fn is_written(alloc: Global, file: &[u8]) -> Result<String, RowError> {
    match recording_of(alloc, file)?.write(alloc) {
        Ok(bytes) => yes_or_no(alloc, bytes.as_slice() == file),
        Err(_) => Err(RowError::Memory),
    }
}

fn is_six(alloc: Global, file: &[u8], pad: &str) -> Result<String, RowError> {
    yes_or_no(alloc, recording_of(alloc, file)?.six(byte(pad)?))
}

fn is_buttons(alloc: Global, text: &str) -> Result<String, RowError> {
    yes_or_no(alloc, Buttons::from_bits(word(text)?).is_some())
}

fn write_value(port: &mut PadPort, text: &str) -> Result<(), RowError> {
    let (cycle, rest) = parted(text, ' ')?;
    let (cycle, value) = (number(cycle)?, byte(rest)?);
    if cycle > MOST {
        return Err(RowError::NoSuchLine);
    }
    port.write_value(cycle, value);
    Ok(())
}

fn write_control(port: &mut PadPort, text: &str) -> Result<(), RowError> {
    let (cycle, rest) = parted(text, ' ')?;
    let (cycle, value) = (number(cycle)?, byte(rest)?);
    if cycle > MOST {
        return Err(RowError::NoSuchLine);
    }
    port.write_control(cycle, value);
    Ok(())
}

/// What is read from a port at a cycle, with these buttons held on a pad of three or of six.
fn read_port(alloc: Global, port: &PadPort, text: &str, six: bool) -> Result<String, RowError> {
    let (cycle, buttons) = parted(text, ' ')?;
    let value = port.read(number(cycle)?, six, word(buttons)?);
    Ok(format!(in alloc; "{value:02X}")?)
}

/// What is answered where a port is asked.
fn answer_of_port(alloc: Global, port: &PadPort, text: &str) -> Result<String, RowError> {
    let (verb, rest) = first_word(text);
    match verb {
        "three" => read_port(alloc, port, rest, false),
        "six" => read_port(alloc, port, rest, true),
        "value" => Ok(format!(in alloc; "{:02X}", port.value())?),
        "control" => Ok(format!(in alloc; "{:02X}", port.control())?),
        "count" => Ok(format!(in alloc; "{}", port.count())?),
        "fall" => Ok(format!(in alloc; "{}", port.fall())?),
        _ => Err(RowError::NoSuchLine),
    }
}

impl Pads {
    pub(crate) fn new() -> Pads {
        Pads { port: None }
    }

    /// `port on` and `port zero` are a port at power-on, and one whose value and control are 0; `port value CYCLE BYTE`
    /// and `port control CYCLE BYTE` write.
    pub(crate) fn obey(&mut self, text: &str) -> Result<(), RowError> {
        let (verb, rest) = first_word(text);
        match verb {
            "on" => self.take(PadPort::power_on()),
            "zero" => self.take(PadPort::with(0, 0, 0, 0)),
            "value" => write_value(self.port()?, rest),
            "control" => write_control(self.port()?, rest),
            _ => Err(RowError::NoSuchLine),
        }
    }

    fn take(&mut self, port: PadPort) -> Result<(), RowError> {
        self.port = Some(port);
        Ok(())
    }

    fn port(&mut self) -> Result<&mut PadPort, RowError> {
        self.port.as_mut().ok_or(RowError::NoSuchName)
    }

    /// What is answered where the port, or a recording that is the row's file, is asked.
    pub(crate) fn answer(
        &mut self,
        alloc: Global,
        file: &[u8],
        verb: &str,
        rest: &str,
    ) -> Result<String, RowError> {
        match verb {
            "recording" => read(alloc, file),
            "fronts" => fronts(alloc, file),
            "frame" => frame(alloc, file, rest),
            "empty" => frame_of_none(alloc, rest),
            "written" => is_written(alloc, file),
            "six" => is_six(alloc, file, rest),
            "buttons" => is_buttons(alloc, rest),
            "port" => answer_of_port(alloc, self.port()?, rest),
            _ => Err(RowError::NoSuchLine),
        }
    }
}
