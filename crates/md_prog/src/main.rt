//! The emulator's program: the command line over the real files and standard output.
#![tactic(auto)]

mod command_line;

use command_line::words;
use md_outer::{FileDepot, FreeGate, OutSink, Sink};
use md_top::drive;
use std::process::ExitCode;
use std::rt::Files;
use std::{fs, io};

fn main(rt: HostRuntime) -> ExitCode {
    let _standard = standard_streams(&rt);
    let alloc = rt.alloc();
    let mut out = OutSink::new(rt);
    let words = match words(&rt, alloc) {
        Ok(words) => words,
        Err(error) if error.kind() == io::ErrorKind::OutOfMemory => {
            let _ = out.put(b"refused: memory\n");
            return ExitCode::from(10);
        }
        // A word that is no text is a wrong usage, as no words are.
        Err(_) => Vec::new(alloc),
    };
    let mut depot = FileDepot::new(rt, alloc);
    ExitCode::from(drive(&rt, alloc, &words, &mut depot, &mut out, &FreeGate))
}

/// Sees to it that no file that is opened later takes the place of a standard stream that the program was
/// started without: the three lowest numbers are taken while these are kept. What is put to such a stream
/// fails.
fn standard_streams<R: Files>(rt: &R) -> [io::Result<R::File>; 3] {
    [
        fs::open(rt, "/dev/null"),
        fs::open(rt, "/dev/null"),
        fs::open(rt, "/dev/null"),
    ]
}
