ghost use Rattle.std.specs.Prelude.{◌≡◌, true, false};
ghost use Rattle.work_sharing.specs.Dues.{AllFree, FreeBut, IsFoundDue};

use crate::Holder;

/// What a worker finds in the work queue.
#[derive(Clone, Copy)]
pub(crate) enum Found {
    /// The chip of this number, of which private work is due.
    Chip(u8),
    Nothing,
    /// No more work comes.
    Over,
}

/// The chips that lie in the work queue.
#[derive(Drop)]
pub(crate) struct Laid<H: Holder> {
    /// Chips of which private work is due.
    due: H,
    /// Chips of which none is.
    done: H,
    /// Chips of workers that have not begun.
    waiting: H,
    /// No more work comes.
    over: bool,
    ghost free: { AllFree H.is_free done },
    ghost ready: { AllFree H.is_free waiting },
}

impl<H: Holder> Laid<H> {
    /// No chip lies here, and more work may come.
    pub(crate) fn new() -> Self {
        Laid {
            due: H::none(),
            done: H::none(),
            waiting: H::none(),
            over: false,
        }
    }

    /// Queues a chip of which work is due.
    pub(crate) fn lay_due(&mut self, helds: &mut H, chip: u8)
        requires { FreeBut H.is_free chip helds.old }
        ensures { AllFree H.is_free helds.new }
    {
        helds.give_due(&mut self.due, chip);
    }

    /// Queues a chip of which none is due.
    pub(crate) fn lay_done(&mut self, helds: &mut H, chip: u8)
        requires { AllFree H.is_free helds.old }
        ensures { AllFree H.is_free helds.new }
    {
        helds.move_free(&mut self.done, chip);
    }

    /// Takes the chip of this number, if it lies here and no work of it is due.
    pub(crate) fn take_done(&mut self, helds: &mut H, chip: u8) -> bool
        requires { AllFree H.is_free helds.old }
        ensures { AllFree H.is_free helds.new }
    {
        if !self.done.has(chip) {
            return false;
        }
        self.done.move_free(helds, chip);
        true
    }

    /// Takes the chip of this number, if it lies here and work of it is due.
    pub(crate) fn take_due(&mut self, helds: &mut H, chip: u8) -> bool
        requires { AllFree H.is_free helds.old }
        ensures found { result ≡ true → FreeBut H.is_free chip helds.new }
        ensures none { result ≡ false → AllFree H.is_free helds.new }
    {
        if !self.due.has(chip) {
            return false;
        }
        self.due.take_due(helds, chip);
        true
    }

    /// Lays down the chip of a worker that has not begun.
    pub(crate) fn lay_waiting(&mut self, helds: &mut H, chip: u8)
        requires { AllFree H.is_free helds.old }
        ensures { AllFree H.is_free helds.new }
    {
        helds.move_free(&mut self.waiting, chip);
    }

    /// Takes the chip of this number, if its worker has not begun.
    pub(crate) fn take_waiting(&mut self, helds: &mut H, chip: u8) -> bool
        requires { AllFree H.is_free helds.old }
        ensures { AllFree H.is_free helds.new }
    {
        if !self.waiting.has(chip) {
            return false;
        }
        self.waiting.move_free(helds, chip);
        true
    }

    /// Takes all chips of which no work is due; answers whether there were any.
    pub(crate) fn take_all(&mut self, helds: &mut H) -> bool
        requires { AllFree H.is_free helds.old }
        ensures { AllFree H.is_free helds.new }
    {
        let mut any = false;
        for chip in 0..H::count() {
            if self.take_done(helds, chip) {
                any = true;
            }
        }
        any
    }

    /// Takes the first chip of which work is due.
    pub(crate) fn take_first(&mut self, helds: &mut H) -> Found
        requires { AllFree H.is_free helds.old }
        ensures { IsFoundDue H.is_free result helds.new }
    {
        for chip in 0..H::count() {
            if self.take_due(helds, chip) {
                return Found::Chip(chip);
            }
        }
        if self.over {
            Found::Over
        } else {
            Found::Nothing
        }
    }

    /// No more work comes.
    pub(crate) fn close(&mut self) {
        self.over = true;
    }
}
