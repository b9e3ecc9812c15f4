use crate::buffer::Buffer;
use crate::calls::Calls;
use crate::fault::count_fault;
use crate::{Failed, NoMemory, Sink};
use std::alloc::Global;

/// A sink in memory, whose bytes contracts observe, and which fails where its plan says so.
#[derive(Drop)]
pub struct MemSink {
    buffer: Buffer,
    calls: Calls,
    faults: u64,
}

impl MemSink {
    ghost use Rattle.std.specs.Prelude.{◌≡◌, [], IfOk};
    ghost use Rattle.md_outer.specs.MemSink.{sink_state_of, sink_plan_of};

    /// An empty sink for at most `room` bytes, whose memory is taken now. `bad` has the numbers of
    /// the writes that fail, counted from 0. It fails only when memory is out.
    pub fn new(alloc: Global, room: u64, bad: Vec<u64>) -> Result<MemSink, NoMemory>
        ensures empty { IfOk result (λ sink. sink_state_of sink ≡ record { bytes = []; faults = 0 }) }
        ensures plan { IfOk result (λ sink. sink_plan_of sink ≡ record { room = room; calls = record { bad = bad.items; made = 0 } }) }
    {
        let buffer = Buffer::new(alloc, room)?;
        Ok(MemSink {
            buffer,
            calls: Calls::new(bad),
            faults: 0,
        })
    }

    /// All that was written.
    pub fn bytes(&self) -> &[u8]
        ensures { result.now ≡ (sink_state_of self.now).bytes }
    {
        &self.buffer.bytes
    }
}

impl Sink for MemSink {
    ghost use Rattle.std.specs.Prelude.{◌≡◌, ◌↔◌, ◌⊎◌, ◌+◌, ◌<◌, length, IsErr, OnOk, OnErr};
    ghost use Rattle.md_outer.specs.Calls.{IsBad, one_more};
    ghost use Rattle.md_outer.specs.Outside.{PutsText};
    ghost use Rattle.md_outer.specs.MemSink.{sink_state_of, sink_plan_of};

    ghost observable = { Unit {0} };

    ghost state = { sink_state_of };

    /// Fails exactly where the plan has it or the room would be passed, and writes nothing then.
    fn put(&mut self, piece: &[u8]) -> Result<(), Failed>
        ensures text { PutsText (Unit {0}) piece.now (sink_state_of self.old) (sink_state_of self.new) result }
        ensures fails { IsErr result ↔ (IsBad (sink_plan_of self.old).calls
            ⊎ ((sink_plan_of self.old).room < length (sink_state_of self.old).bytes + length piece.now)) }
        ensures quiet { OnOk result ((sink_state_of self.new).faults ≡ (sink_state_of self.old).faults) }
        ensures nothing { OnErr result ((sink_state_of self.new).bytes ≡ (sink_state_of self.old).bytes) }
        ensures plan { sink_plan_of self.new ≡ record (sink_plan_of self.old) { calls = one_more (sink_plan_of self.old).calls } }
    {
        if self.calls.next_fails() || !self.buffer.append(piece) {
            count_fault(&mut self.faults);
            return Err(Failed);
        }
        Ok(())
    }
}
