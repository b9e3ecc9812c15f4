use crate::fault::count_fault;
use crate::transfer::write_whole;
use crate::{Failed, Sink};
use std::io;

/// Standard output as a sink. Contracts observe no contents.
#[derive(Drop)]
pub struct OutSink<R: Print + Drop> {
    rt: R,
    faults: u64,
}

impl<R: Print + Drop> OutSink<R> {
    ghost use Rattle.std.specs.Prelude.{◌≡◌, []};
    ghost use Rattle.md_outer.specs.OutSink.{out_state};

    /// A sink over a runtime that prints. No fault is counted yet.
    pub fn new(rt: R) -> OutSink<R>
        ensures { out_state result ≡ record { bytes = []; faults = 0 } }
    {
        OutSink { rt, faults: 0 }
    }
}

impl<R: Print + Drop> Sink for OutSink<R> {
    ghost use Rattle.md_outer.specs.OutSink.{out_state};

    ghost observable = { ⊥ };

    ghost state = { out_state };

    fn put(&mut self, piece: &[u8]) -> Result<(), Failed> {
        match write_whole(&mut io::writer(&self.rt), piece) {
            Ok(()) => Ok(()),
            Err(failed) => {
                count_fault(&mut self.faults);
                Err(failed)
            }
        }
    }
}
