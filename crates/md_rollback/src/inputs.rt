ghost use Rattle.std.specs.Prelude.{◌≡◌, ◌≤◌, ◌<◌, ℕ, ◌^◌, ◌↔◌, Some, None, length, slice_set, IfOk, OnOk, OnErr, IsErrOf, Err};
ghost use Rattle.md_rollback.specs.Inputs.{given, expected_frames, most_frames, no_words, AreInputs};

use crate::frames::expected_frames;
use crate::input_fault::InputFault;
use crate::words::{first_missing, give, none_given};
use md_word::NoMemory;
use std::alloc::Global;
use std::marker::Model;

/// The inputs of both players, as far as they were given.
#[derive(Drop)]
pub struct Inputs {
    local: Vec<Option<u16>>,
    remote: Vec<Option<u16>>,
    confirmed: usize,
}

impl Model for Inputs {
    ghost use Rattle.md_rollback.specs.Inputs.{AreInputs, InputsValue};

    ghost Value = { InputsValue };

    ghost view = { λ s. record { local = s.local.items; remote = s.remote.items; confirmed = s.confirmed } };

    ghost invariant = { λ s. AreInputs (record { local = s.local.items; remote = s.remote.items; confirmed = s.confirmed }) };
}

impl Inputs {
    /// The inputs of which none was given. It fails only when memory runs out.
    pub fn make(alloc: Global) -> Result<Inputs, NoMemory>
        ensures { IfOk result (λ inputs. inputs ≡ record { local = no_words; remote = no_words; confirmed = 0 }) }
    {
        let local = none_given(alloc)?;
        let remote = none_given(alloc)?;
        Ok(Inputs {
            local,
            remote,
            confirmed: 0,
        })
    }

    /// What holds of them.
    pub fn known(&self)
        ensures { AreInputs self.now }
    {
        let _confirmed = self.confirmed;
    }

    /// How many frames have both players' inputs, from the first on.
    pub fn confirmed(&self) -> usize
        ensures confirmed { result ≡ self.now.confirmed }
        ensures within { result ≤ most_frames }
    {
        self.confirmed
    }

    /// Gives player 1's buttons in a frame. The frame is 0 to 35,999, and the buttons are bits 0 to 7. It fails
    /// where there is no such frame, where the frame's buttons were given, or where another bit is set.
    pub fn local(&mut self, frame: u64, buttons: u16) -> Result<(), InputFault>
        ensures ok { OnOk result ((self.new.local ≡ slice_set self.old.local frame (Some buttons)) × (self.new.remote ≡ self.old.remote)) }
        ensures free { OnOk result (given self.old.local frame ≡ None) }
        ensures err { OnErr result (self.new ≡ self.old) }
        ensures far { (last : ℕ) → IsErrOf result (InputFault.Far last) ↔ ((most_frames ≤ frame) × (last ≡ 35999)) }
        ensures given { (kept : ℕ) → IsErrOf result (InputFault.Given kept) ↔ (given self.old.local frame ≡ Some kept) }
        ensures buttons { (result ≡ Err InputFault.Buttons) ↔ ((frame < most_frames) × (given self.old.local frame ≡ None) × (2 ^ 8 ≤ buttons)) }
    {
        match give(self.local.as_mut_slice(), frame, buttons) {
            Ok(()) => {
                self.confirmed = first_missing(&self.local, &self.remote, self.confirmed);
                Ok(())
            }
            Err(fault) => Err(fault),
        }
    }

    /// Gives player 2's buttons in a frame. The frame is 0 to 35,999, and the buttons are bits 0 to 7. It fails
    /// where there is no such frame, where the frame's buttons were given, or where another bit is set.
    pub fn remote(&mut self, frame: u64, buttons: u16) -> Result<(), InputFault>
        ensures ok { OnOk result ((self.new.remote ≡ slice_set self.old.remote frame (Some buttons)) × (self.new.local ≡ self.old.local)) }
        ensures free { OnOk result (given self.old.remote frame ≡ None) }
        ensures err { OnErr result (self.new ≡ self.old) }
        ensures far { (last : ℕ) → IsErrOf result (InputFault.Far last) ↔ ((most_frames ≤ frame) × (last ≡ 35999)) }
        ensures given { (kept : ℕ) → IsErrOf result (InputFault.Given kept) ↔ (given self.old.remote frame ≡ Some kept) }
        ensures buttons { (result ≡ Err InputFault.Buttons) ↔ ((frame < most_frames) × (given self.old.remote frame ≡ None) × (2 ^ 8 ≤ buttons)) }
    {
        match give(self.remote.as_mut_slice(), frame, buttons) {
            Ok(()) => {
                self.confirmed = first_missing(&self.local, &self.remote, self.confirmed);
                Ok(())
            }
            Err(fault) => Err(fault),
        }
    }

    /// The recording that is expected of so many frames. It fails only when memory runs out.
    pub fn expected(&self, alloc: Global, count: usize) -> Result<Vec<(u16, u16)>, NoMemory>
        requires { count ≤ most_frames }
        ensures { IfOk result (λ frames. frames.items ≡ expected_frames self.now.local self.now.remote count) }
    {
        self.expected_after(alloc, &[], count)
    }

    /// The recording that is expected of so many frames, from that of the first ones. It fails only when memory runs
    /// out.
    pub(crate) fn expected_after(
        &self,
        alloc: Global,
        known: &[(u16, u16)],
        count: usize,
    ) -> Result<Vec<(u16, u16)>, NoMemory>
        requires known { known.now ≡ expected_frames self.now.local self.now.remote (length known.now) }
        requires fewer { length known.now ≤ count }
        requires within { count ≤ most_frames }
        ensures { IfOk result (λ frames. frames.items ≡ expected_frames self.now.local self.now.remote count) }
    {
        expected_frames(alloc, &self.local, &self.remote, known, count)
    }
}
