ghost use Rattle.std.specs.Prelude.{◌≡◌, List, Some, option_map};
ghost use Rattle.bus_shared.specs.Accesses as accesses;
ghost use Rattle.bus_shared.specs.Accesses.{answer_value_of};
ghost use Rattle.md_word.specs.declared.main_bus.Answer68.{Answer68 as MainAnswer};
ghost use Rattle.fm_port.specs.declared.write.FmWrite.{FmWrite as WriteFm};
ghost use Rattle.psg_sound.specs.declared.write.PsgWrite.{PsgWrite as Write};
ghost use Rattle.vdp_planes.specs.declared.view.LineView.{LineView as View};
ghost use Rattle.z80_parcel.specs.Requests.{AnswerValue80, answer_value80_of};

use fm_port::FmList;
use md_word::{Answer68, Answer80, Request68, Request80};
use psg_sound::PsgList;
use vdp_planes::{LineView, SpriteNote};

/// A shared access of a chip.
#[derive(Drop)]
pub enum Request {
    /// Of the 68000, chip 0.
    Main(Request68),
    /// Of the Z80, chip 1.
    Sub(Request80),
    /// The start of a line, by the VDP renderer, chip 2: the view that is to be filled, and what
    /// the sprites of the line before have set.
    Line(Box<LineView>, SpriteNote),
    /// A batch of the FM synthesis, chip 3: the list into which the writes for it are moved.
    Fm(Box<FmList>),
    /// A batch of the PSG synthesis, chip 4: the list into which the writes for it are moved.
    Psg(Box<PsgList>),
}

/// What a shared access answers.
#[derive(Drop)]
pub enum Answer {
    /// To the 68000.
    Main(Answer68),
    /// To the Z80.
    Sub(Answer80),
    /// To the start of a line: the view, which shows the VDP of a line of the picture.
    Line(Box<LineView>),
    /// To a batch of the FM synthesis: the writes for it.
    Fm(Box<FmList>),
    /// To a batch of the PSG synthesis: the writes for it.
    Psg(Box<PsgList>),
}

impl Answer {
    /// What it answers to the 68000. `None`: it answers another chip.
    pub fn main(self) -> Option<Answer68>
        ensures { (answer : MainAnswer) → answer_value_of self ≡ accesses.Main answer → result ≡ Some answer }
    {
        match self {
            Answer::Main(answer) => Some(answer),
            Answer::Sub(_) | Answer::Line(_) | Answer::Fm(_) | Answer::Psg(_) => None,
        }
    }

    /// What it answers to the Z80. `None`: it answers another chip.
    pub fn sub(self) -> Option<Answer80>
        ensures { (answer : AnswerValue80) → answer_value_of self ≡ accesses.Sub answer → option_map answer_value80_of result ≡ Some answer }
    {
        match self {
            Answer::Sub(answer) => Some(answer),
            Answer::Main(_) | Answer::Line(_) | Answer::Fm(_) | Answer::Psg(_) => None,
        }
    }

    /// The view that it hands to the VDP renderer. `None`: it answers another chip.
    pub fn line_view(self) -> Option<Box<LineView>>
        ensures { (view : View) → answer_value_of self ≡ accesses.Line view → option_map (λ held. held.value) result ≡ Some view }
    {
        match self {
            Answer::Line(view) => Some(view),
            Answer::Main(_) | Answer::Sub(_) | Answer::Fm(_) | Answer::Psg(_) => None,
        }
    }

    /// The writes that it hands to the FM synthesis. `None`: it answers another chip.
    pub fn fm_list(self) -> Option<Box<FmList>>
        ensures { (writes : List WriteFm) → answer_value_of self ≡ accesses.Fm writes → option_map (λ list. list.value.items) result ≡ Some writes }
    {
        match self {
            Answer::Fm(list) => Some(list),
            Answer::Main(_) | Answer::Sub(_) | Answer::Line(_) | Answer::Psg(_) => None,
        }
    }

    /// The writes that it hands to the PSG synthesis. `None`: it answers another chip.
    pub fn psg_list(self) -> Option<Box<PsgList>>
        ensures { (writes : List Write) → answer_value_of self ≡ accesses.Psg writes → option_map (λ list. list.value.items) result ≡ Some writes }
    {
        match self {
            Answer::Psg(list) => Some(list),
            Answer::Main(_) | Answer::Sub(_) | Answer::Line(_) | Answer::Fm(_) => None,
        }
    }
}
