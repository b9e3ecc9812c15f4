ghost use Rattle.std.specs.Prelude.{◌≡◌, ◌<◌, IfOk, [], ◌+◌};
ghost use Rattle.md_word.specs.Clock.{cycle_limit};
ghost use Rattle.md_chips.specs.Rules as rules;

use crate::batches::{MOST_SAMPLES, batch_at, first_sample, keep};
use arrayvec::ArrayVec;
use bus_shared::{Request, Shared, carry_out};
use md_word::clock::BATCH;
use md_word::{Entry, Next, NoMemory};
use psg_sound::{PsgList, PsgSynth};
use std::alloc::Global;
use std::marker::Model;

/// The PSG's synthesis: an access each 16,128 cycles, which takes the writes that the port holds
/// and makes 16 samples. It keeps the samples until they are drained, as long as there is room.
#[derive(Drop)]
pub struct PsgChip {
    synth: PsgSynth,
    cycle: u64,
    taken: Option<Box<PsgList>>,
    samples: Box<ArrayVec<i32, MOST_SAMPLES>>,
}

impl Model for PsgChip {
    ghost use Rattle.md_chips.specs.Parts.{PsgValue, IsPsg};
    ghost use Rattle.std.specs.Prelude.{IsSome, unwrap_or, option_map, []};

    ghost Value = { PsgValue };

    ghost view = { λ c. record { synth = c.synth; cycle = c.cycle; taken = unwrap_or (option_map (λ b. b.value.items) c.taken) []; samples = c.samples.value.items } };

    ghost invariant = { λ c. IsSome c.taken × IsPsg (record { synth = c.synth; cycle = c.cycle; taken = unwrap_or (option_map (λ b. b.value.items) c.taken) []; samples = c.samples.value.items }) };
}

impl PsgChip {
    ghost use Rattle.md_chips.specs.Parts.{IsPsg};

    /// A synthesis whose next batch is at a cycle, and which took and kept nothing.
    pub(crate) fn new(alloc: Global, synth: PsgSynth, cycle: u64) -> Result<PsgChip, NoMemory>
        ensures { IfOk result (λ chip. chip ≡ record { synth = synth; cycle = cycle; taken = []; samples = [] }) }
    {
        Ok(PsgChip {
            synth,
            cycle,
            taken: Some(Box::new(alloc, PsgList::new())?),
            samples: Box::new(alloc, ArrayVec::new())?,
        })
    }

    pub(crate) fn synth(&self) -> &PsgSynth
        ensures { result.now ≡ self.now.synth }
    {
        &self.synth
    }

    pub(crate) fn next(&self) -> Next
        ensures value { result ≡ rules.psg_next self.now.cycle }
        ensures psg { IsPsg self.now }
    {
        batch_at(self.cycle, 4)
    }

    /// Takes the writes for the batch that is due.
    #[tactic(auto, unfolding(bus_shared::specs::Accesses::carried))]
    pub(crate) fn perform(&mut self, shared: &mut Shared) -> Entry
        requires { self.old.cycle < cycle_limit }
        ensures chip { self.new ≡ (rules.psg_perform self.old shared.old).chip }
        ensures shared { shared.new ≡ (rules.psg_perform self.old shared.old).shared }
        ensures entry { result ≡ (rules.psg_perform self.old shared.old).entry }
    {
        shared.known();
        let key = self.next().key;
        if let Some(list) = self.taken.take() {
            let (answer, entry) = carry_out(shared, key, Request::Psg(list));
            self.taken = answer.psg_list();
            entry
        } else {
            unreachable!()
        }
    }

    /// Makes the samples of the batch that is due.
    pub(crate) fn advance(&mut self)
        requires { self.old.cycle < cycle_limit }
        ensures { self.new ≡ rules.psg_advance self.old }
    {
        let first = first_sample(self.cycle);
        let mut batch = [0; 16];
        if let Some(list) = &self.taken {
            self.synth.batch(first, list, &mut batch);
        }
        keep(&batch, &mut self.samples);
        self.cycle += BATCH;
    }

    /// The samples that were made since they were last drained.
    pub(crate) fn samples(&self) -> &[i32]
        ensures value { result.now ≡ self.now.samples }
        ensures psg { IsPsg self.now }
    {
        self.samples.as_slice()
    }

    /// Lets the samples go.
    pub(crate) fn drain(&mut self)
        ensures { self.new ≡ record self.old { samples = [] } }
    {
        self.samples.clear();
    }
}
