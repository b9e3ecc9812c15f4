ghost use Rattle.std.specs.Prelude.{◌≡◌, ◌<◌, IfOk, [], ◌+◌};
ghost use Rattle.md_word.specs.Clock.{cycle_limit};
ghost use Rattle.md_chips.specs.Rules as rules;

use crate::batches::{MOST_SAMPLES, batch_at, first_sample, keep};
use arrayvec::ArrayVec;
use bus_shared::{Request, Shared, carry_out};
use fm_chip::FmSynth;
use fm_port::FmList;
use md_word::clock::BATCH;
use md_word::{Entry, Next, NoMemory};
use std::alloc::Global;
use std::marker::Model;

/// The FM synthesis: an access each 16,128 cycles, which takes the writes that the port holds and makes
/// 16 samples, each the sums of both sides. It keeps the samples until they are drained, as long as
/// there is room.
#[derive(Drop)]
pub struct FmChip {
    synth: Box<FmSynth>,
    cycle: u64,
    taken: Option<Box<FmList>>,
    samples: Box<ArrayVec<(i32, i32), MOST_SAMPLES>>,
}

impl Model for FmChip {
    ghost use Rattle.md_chips.specs.Parts.{FmValue, IsFm};
    ghost use Rattle.std.specs.Prelude.{IsSome, unwrap_or, option_map, []};

    ghost Value = { FmValue };

    ghost view = { λ c. record { synth = c.synth.value; cycle = c.cycle; taken = unwrap_or (option_map (λ b. b.value.items) c.taken) []; samples = c.samples.value.items } };

    ghost invariant = { λ c. IsSome c.taken × IsFm (record { synth = c.synth.value; cycle = c.cycle; taken = unwrap_or (option_map (λ b. b.value.items) c.taken) []; samples = c.samples.value.items }) };
}

impl FmChip {
    ghost use Rattle.md_chips.specs.Parts.{IsFm};

    /// A synthesis whose next batch is at a cycle, and which took and kept nothing.
    pub(crate) fn new(alloc: Global, synth: FmSynth, cycle: u64) -> Result<FmChip, NoMemory>
        ensures { IfOk result (λ chip. chip ≡ record { synth = synth; cycle = cycle; taken = []; samples = [] }) }
    {
        Ok(FmChip {
            synth: Box::new(alloc, synth)?,
            cycle,
            taken: Some(Box::new(alloc, FmList::new())?),
            samples: Box::new(alloc, ArrayVec::new())?,
        })
    }

    pub(crate) fn synth(&self) -> &FmSynth
        ensures { result.now ≡ self.now.synth }
    {
        &self.synth
    }

    pub(crate) fn next(&self) -> Next
        ensures value { result ≡ rules.fm_next self.now.cycle }
        ensures fm { IsFm self.now }
    {
        batch_at(self.cycle, 3)
    }

    /// Takes the writes for the batch that is due.
    #[tactic(auto, unfolding(bus_shared::specs::Accesses::carried))]
    pub(crate) fn perform(&mut self, shared: &mut Shared) -> Entry
        requires { self.old.cycle < cycle_limit }
        ensures chip { self.new ≡ (rules.fm_perform self.old shared.old).chip }
        ensures shared { shared.new ≡ (rules.fm_perform self.old shared.old).shared }
        ensures entry { result ≡ (rules.fm_perform self.old shared.old).entry }
    {
        shared.known();
        let key = self.next().key;
        if let Some(list) = self.taken.take() {
            let (answer, entry) = carry_out(shared, key, Request::Fm(list));
            self.taken = answer.fm_list();
            entry
        } else {
            unreachable!()
        }
    }

    /// Makes the samples of the batch that is due.
    pub(crate) fn advance(&mut self)
        requires { self.old.cycle < cycle_limit }
        ensures { self.new ≡ rules.fm_advance self.old }
    {
        let first = first_sample(self.cycle);
        let mut batch = [(0, 0); 16];
        if let Some(list) = &self.taken {
            self.synth.batch(first, list, &mut batch);
        }
        keep(&batch, &mut self.samples);
        self.cycle += BATCH;
    }

    /// Whether the chip may be heard as it is: a batch then takes many times as long as an idle chip's. The
    /// writes of the next batch are not looked at, so one in which an idle chip begins to sound is not found.
    pub(crate) fn is_worth_offloading(&self) -> bool {
        !self.synth.is_idle()
    }

    /// The sums that were made since they were last drained.
    pub(crate) fn samples(&self) -> &[(i32, i32)]
        ensures value { result.now ≡ self.now.samples }
        ensures fm { IsFm self.now }
    {
        self.samples.as_slice()
    }

    /// Lets the samples go.
    pub(crate) fn drain(&mut self)
        ensures { self.new ≡ record self.old { samples = [] } }
    {
        self.samples.clear();
    }
}
