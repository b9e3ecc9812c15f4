ghost use Rattle.std.specs.Prelude.{◌≢◌, ℕ, ◌≤◌, Option, Some};
ghost use Rattle.md_outer.specs.Outside.{DepotState, SinkState};
ghost use Rattle.md_top.specs.Answers.{Answers, Causes, Reports};
ghost use Rattle.run_command.specs.Courses.{start_in};
ghost use Rattle.run_command.specs.Demos.{IsSummary};
ghost use Rattle.md_top.specs.Stages.{IsAboutToRun, IsAboutToRunDemo, IsAnswered, IsPrepared, IsRunning, Runs, Stands, WasPrepared};
ghost use Rattle.run_command.specs.Workers.{CanGoOn, WentOn};
ghost use Rattle.md_top.specs.declared.command_outcome.CommandOutcome.TheVariants.{DemoDone};
ghost use Rattle.run_command.specs.declared.summary.Summary.{Summary};
ghost use Rattle.md_args.specs.Shown.{shown_demo, shown_run};
ghost use Rattle.md_args.specs.Words.{Command, RunCart, RunDemo};

use crate::begun_run::BegunRun;
use crate::command_outcome::CommandOutcome;
use crate::laws::runs_begin_once;
use crate::prepared::{Prepared, Stage};
use crate::report::{refuse, report};
use md_args::{CommandWords, DemoWords, RunWords};
use md_machine::Machine;
use md_outer::{Depot, Gate, Sink};
use run_command::{Course, sum_up, write_all};
use std::sync::Wait;
use std::thread::Threads;

/// Makes the run that is about to begin, if one is, puts what the words result in, and answers the status that the
/// program ends with. The depot and the sink are those of `prepare`, as that call left them.
///
/// It takes no memory: of a run that is about to begin it never answers 10. Such a run has as many workers as
/// `--workers K` asks for. Of several the caller is the last; each other one is a thread, and passes the gate
/// before it looks for the turn of a chip. The threads of a segment have ended before its records are written.
/// The call may wait for them; where it returns, its answer is that of `finish_one`.
pub fn finish<D: Depot, S: Sink, G: Gate, Rt: Threads + Wait + Sync>(
    rt: &Rt,
    prepared: Prepared<'_>,
    depot: &mut D,
    out: &mut S,
    gate: &G,
) -> u8
    requires { WasPrepared D.observable S.observable (D.state depot.old) (S.state out.old) prepared }
    ensures answer { (command : Option Command) (first : DepotState) (before : SinkState)
        → IsPrepared D.observable S.observable command first (D.state depot.old) before (S.state out.old) prepared.entry
        → Answers D.observable S.observable command first (D.state depot.new) before (S.state out.new) result }
    ensures causes { (command : Option Command) (first : DepotState) (before : SinkState)
        → IsPrepared D.observable S.observable command first (D.state depot.old) before (S.state out.old) prepared.entry
        → Causes D.observable command first (D.state depot.new) before (S.state out.new) result }
    ensures memory { IsRunning prepared.entry → result ≢ 10 }
{
    let number = prepared.workers();
    if number > 1 {
        let together = |machine: &mut Machine, to: u64|
            requires some { 1 ≤ number }
            requires few { number ≤ 5 }
            requires can { CanGoOn machine.old to }
            ensures went { WentOn machine.old to machine.new }
        {
            machine.segment(rt, to, number, gate);
        };
        finish_stage(&together, prepared.stage, depot, out)
    } else {
        finish_one(prepared, depot, out)
    }
}

/// Does the same as `finish`, but whatever `--workers` asks for, one worker makes the run: it waits for nobody.
pub fn finish_one<D: Depot, S: Sink>(prepared: Prepared<'_>, depot: &mut D, out: &mut S) -> u8
    requires { WasPrepared D.observable S.observable (D.state depot.old) (S.state out.old) prepared }
    ensures answer { (command : Option Command) (first : DepotState) (before : SinkState)
        → IsPrepared D.observable S.observable command first (D.state depot.old) before (S.state out.old) prepared.entry
        → Answers D.observable S.observable command first (D.state depot.new) before (S.state out.new) result }
    ensures causes { (command : Option Command) (first : DepotState) (before : SinkState)
        → IsPrepared D.observable S.observable command first (D.state depot.old) before (S.state out.old) prepared.entry
        → Causes D.observable command first (D.state depot.new) before (S.state out.new) result }
    ensures memory { IsRunning prepared.entry → result ≢ 10 }
{
    let alone = |machine: &mut Machine, to: u64|
        requires can { CanGoOn machine.old to }
        ensures went { WentOn machine.old to machine.new }
    {
        machine.alone(to);
    };
    finish_stage(&alone, prepared.stage, depot, out)
}

/// Goes on from where a command line came to. `go_on` makes each segment of a run.
fn finish_stage<F: Fn(&mut Machine, u64), D: Depot, S: Sink>(
    go_on: &F,
    stage: Stage<'_>,
    depot: &mut D,
    out: &mut S,
) -> u8
    requires may { (m : _) (to : ℕ) → CanGoOn m.now to → F.pre go_on.now m to }
    requires goes { (m : _) (to : ℕ) (after : _) → F.post go_on.now m to tt after → WentOn m.now to after.now }
    requires stands { (command : Option Command) × (first : DepotState) × (before : SinkState)
        × Stands D.observable S.observable command first (D.state depot.old) before (S.state out.old) stage }
    ensures answered { (command : Option Command) (first : DepotState) (before : SinkState)
        → Stands D.observable S.observable command first (D.state depot.old) before (S.state out.old) stage.entry
        → IsAnswered D.observable S.observable command first (D.state depot.new) before (S.state out.new) result }
    ensures memory { Runs stage.entry → result ≢ 10 }
{
    match stage {
        Stage::Usage => refuse(out, CommandOutcome::Usage, "refused: usage\n"),
        Stage::Memory => refuse(out, CommandOutcome::Memory, "refused: memory\n"),
        Stage::Ended(command, command_outcome) => report(&command, command_outcome, out),
        Stage::Run(run, begun) => finish_run(go_on, &run, begun, depot, out),
        Stage::Demo(demo, course) => finish_demo(go_on, &demo, course, out),
    }
}

/// Makes a run, and reports it. `go_on` makes each segment.
fn finish_run<F: Fn(&mut Machine, u64), D: Depot, S: Sink>(
    go_on: &F,
    run: &RunWords<'_>,
    begun: BegunRun,
    depot: &mut D,
    out: &mut S,
) -> u8
    requires may { (m : _) (to : ℕ) → CanGoOn m.now to → F.pre go_on.now m to }
    requires goes { (m : _) (to : ℕ) (after : _) → F.post go_on.now m to tt after → WentOn m.now to after.now }
    requires about { (first : DepotState) × IsAboutToRun D.observable (shown_run run.now) first (D.state depot.old) begun }
    ensures answered { (first : DepotState) → IsAboutToRun D.observable (shown_run run.now) first (D.state depot.old) begun
        → IsAnswered D.observable S.observable (Some (RunCart (shown_run run.now))) first (D.state depot.new) (S.state out.old) (S.state out.new) result }
    ensures memory { result ≢ 10 }
{
    let BegunRun {
        outputs,
        course,
        buffers,
    } = begun;
    runs_begin_once();
    let outcome = write_all(go_on, run, &outputs, depot, course, buffers);
    let command_outcome = CommandOutcome::of_run(outcome);
    report(&CommandWords::Run(*run), command_outcome, out)
}

/// Makes the run of a demonstration cartridge, and reports it. `go_on` makes each segment.
fn finish_demo<F: Fn(&mut Machine, u64), S: Sink>(
    go_on: &F,
    demo: &DemoWords,
    course: Course,
    out: &mut S,
) -> u8
    requires may { (m : _) (to : ℕ) → CanGoOn m.now to → F.pre go_on.now m to }
    requires goes { (m : _) (to : ℕ) (after : _) → F.post go_on.now m to tt after → WentOn m.now to after.now }
    requires about { IsAboutToRunDemo (shown_demo demo.now) course }
    ensures reported { (summary : Summary) × IsSummary (start_in course) demo.now.cycles summary
        × Reports S.observable (Some (RunDemo (shown_demo demo.now))) (DemoDone summary) (S.state out.old) (S.state out.new) result }
    ensures memory { result ≢ 10 }
{
    let summary = sum_up(go_on, demo.cycles, course);
    report(
        &CommandWords::Demo(*demo),
        CommandOutcome::DemoDone(summary),
        out,
    )
}
