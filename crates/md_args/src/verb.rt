ghost use Rattle.std.specs.Prelude.{◌≡◌, map};
ghost use Rattle.md_args.specs.Parse.{name_of, rule_for, rules_of, verb_of};

use crate::parameter::Parameter;

/// The first word of the command line, which says what it asks for.
#[derive(Clone, Copy)]
pub(crate) enum Verb {
    /// `info ROM`
    Info,
    /// `run ROM --cycles N --in P --load S --save S --frames F --sound W --journal J --workers K --pal`
    Run,
    /// `demo NUMBER --cycles N --workers W --pal`
    Demo,
    /// `vgm JOURNAL OUT --pal`
    Vgm,
    /// `play VGM OUT --pal`
    Play,
    /// `asm SOURCE OUT --list L`
    Asm,
    /// `debug ROM SCRIPT`
    Debug,
    /// `rollback ROM INPUTS --window W`
    Rollback,
}

const INFO: [Parameter<'static>; 1] = [Parameter::Word("rom")];

const RUN: [Parameter<'static>; 10] = [
    Parameter::Word("rom"),
    Parameter::Flag("pal"),
    Parameter::Wanted("cycles"),
    Parameter::Option("in"),
    Parameter::Option("load"),
    Parameter::Option("save"),
    Parameter::Option("frames"),
    Parameter::Option("sound"),
    Parameter::Option("journal"),
    Parameter::Option("workers"),
];

const DEMO: [Parameter<'static>; 4] = [
    Parameter::Word("number"),
    Parameter::Flag("pal"),
    Parameter::Wanted("cycles"),
    Parameter::Wanted("workers"),
];

const CONVERSION: [Parameter<'static>; 3] = [
    Parameter::Word("input"),
    Parameter::Word("output"),
    Parameter::Flag("pal"),
];

const ASM: [Parameter<'static>; 3] = [
    Parameter::Word("source"),
    Parameter::Word("output"),
    Parameter::Option("list"),
];

const DEBUG: [Parameter<'static>; 2] = [Parameter::Word("rom"), Parameter::Word("script")];

const ROLLBACK: [Parameter<'static>; 3] = [
    Parameter::Word("rom"),
    Parameter::Word("inputs"),
    Parameter::Wanted("window"),
];

impl Verb {
    /// The verb that the word is, if it is one.
    pub(crate) fn read(word: &str) -> Option<Verb>
        ensures { result ≡ verb_of word.now }
    {
        match word {
            "info" => Some(Verb::Info),
            "run" => Some(Verb::Run),
            "demo" => Some(Verb::Demo),
            "vgm" => Some(Verb::Vgm),
            "play" => Some(Verb::Play),
            "asm" => Some(Verb::Asm),
            "debug" => Some(Verb::Debug),
            "rollback" => Some(Verb::Rollback),
            _ => None,
        }
    }

    /// The word.
    pub(crate) fn name<'a>(self) -> &'a str
        ensures { result.now ≡ name_of self }
    {
        match self {
            Verb::Info => "info",
            Verb::Run => "run",
            Verb::Demo => "demo",
            Verb::Vgm => "vgm",
            Verb::Play => "play",
            Verb::Asm => "asm",
            Verb::Debug => "debug",
            Verb::Rollback => "rollback",
        }
    }

    /// What it takes.
    pub(crate) fn parameters<'a>(self) -> &'a [Parameter<'a>]
        ensures { map rule_for result.now ≡ rules_of self }
    {
        match self {
            Verb::Info => &INFO,
            Verb::Run => &RUN,
            Verb::Demo => &DEMO,
            Verb::Vgm | Verb::Play => &CONVERSION,
            Verb::Asm => &ASM,
            Verb::Debug => &DEBUG,
            Verb::Rollback => &ROLLBACK,
        }
    }
}
