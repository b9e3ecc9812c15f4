ghost use Rattle.std.specs.Prelude.{◌≡◌, IfOk, false, fold, map};
ghost use Rattle.clap.specs.Simple.{app_of, with_rule};
ghost use Rattle.clap.specs.Walk.{rule_of};
ghost use Rattle.md_args.specs.Parse as meaning;

use crate::parameter::Parameter;
use crate::verb::Verb;
use clap::{Arg, ArgAction, Command};
use std::alloc::{AllocError, Global};

/// The command of a verb, after its word.
pub(crate) fn command_for<'a>(alloc: Global, verb: Verb) -> Result<Command<'a>, AllocError>
    ensures { IfOk result (λ command. app_of command ≡ meaning.app_for verb) }
{
    with_each(bare(alloc, verb.name()), alloc, verb.parameters())
}

/// A command with no argument yet, which reads no program's name and has no help.
fn bare<'a>(alloc: Global, name: &'a str) -> Command<'a>
    ensures { app_of result ≡ meaning.bare name.entry.now }
{
    Command::new(alloc, name)
        .no_binary_name(true)
        .disable_help_flag(true)
}

/// Adds what the command takes, in this order.
fn with_each<'a>(
    command: Command<'a>,
    alloc: Global,
    parameters: &[Parameter<'a>],
) -> Result<Command<'a>, AllocError>
    ensures { IfOk result (λ c. app_of c ≡ fold with_rule (app_of command.entry) (map meaning.rule_for parameters.now)) }
{
    match parameters {
        [] => Ok(command),
        [parameter, rest @ ..] => {
            let first = with_parameter(command, alloc, *parameter)?;
            with_each(first, alloc, rest)
        }
    }
}

/// Adds one that the command takes.
fn with_parameter<'a>(
    command: Command<'a>,
    alloc: Global,
    parameter: Parameter<'a>,
) -> Result<Command<'a>, AllocError>
    ensures { IfOk result (λ c. app_of c ≡ with_rule (app_of command.entry) (meaning.rule_for parameter.entry)) }
{
    command.arg(argument(alloc, parameter))
}

/// What `clap` knows of it.
fn argument<'a>(alloc: Global, parameter: Parameter<'a>) -> Arg<'a>
    ensures rule { rule_of result ≡ meaning.rule_for parameter.entry }
    ensures local { result.global ≡ false }
{
    match parameter {
        Parameter::Word(name) => Arg::new(alloc, name).required(true),
        Parameter::Flag(name) => flag(alloc, name),
        Parameter::Wanted(name) => Arg::new(alloc, name).long(name).required(true),
        Parameter::Option(name) => Arg::new(alloc, name).long(name),
    }
}

/// An option without a value. Where it is given, its value is empty.
fn flag<'a>(alloc: Global, name: &'a str) -> Arg<'a>
    ensures rule { rule_of result ≡ meaning.flag name.entry.now }
    ensures local { result.global ≡ false }
{
    Arg::new(alloc, name)
        .long(name)
        .action(ArgAction::Set)
        .num_args(0usize)
        .default_missing_value("")
}
