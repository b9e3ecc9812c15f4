ghost use Rattle.std.specs.Prelude.{◌≡◌, ◌≢◌, ℕ, ◌≤◌, ◌<◌, OnOk, OnErr, IfErr};
ghost use Rattle.md_outer.specs.Outside.{Files, GoesOn};
ghost use Rattle.md_chips.specs.Starts.{Start};
ghost use Rattle.run_command.specs.Courses.{CameFrom, IsAtStart, IsUnderway, cycle_of, start_in};
ghost use Rattle.run_command.specs.Counts.{count_of_frames, frames_between, pairs_between, pairs_of};
ghost use Rattle.run_command.specs.RunOutcomes.{HoldsUntil, IsWriteFault, RunCause, RunLeaves};
ghost use Rattle.md_word.specs.Clock.{last_cycle};
ghost use Rattle.run_command.specs.Limits.{IsEnd};
ghost use Rattle.run_command.specs.Limits as limits;
ghost use Rattle.run_command.specs.Outputs.{AreBegun, Holds, LeavesParts, nothing};
ghost use Rattle.run_command.specs.Runs.{pieces_of};
ghost use Rattle.run_command.specs.Saves.{CanSave};
ghost use Rattle.run_command.specs.Workers.{CanGoOn, WentOn};
ghost use Rattle.md_args.specs.Shown.{shown_run};

use crate::course::Course;
use crate::laws::states_keep_laws;
use crate::output::{append, append_all};
use crate::outputs::Outputs;
use crate::run_outcome::RunOutcome;
use crate::saving::save;
use crate::segment::advance;
use crate::state_buffers::StateBuffers;
use md_args::{Output, RunWords};
use md_files::wav_head;
use md_machine::Machine;
use md_machine::laws::lists_end_as_run;
use md_outer::Depot;
use md_word::clock::BATCH;
use md_word::region::{finished_at, frame_cycles};
use save_state::laws::kept;

/// Runs from its start to the end, and writes what it makes into its outputs, which are begun. All memory
/// is taken.
pub fn write_all<F: Fn(&mut Machine, u64), D: Depot>(
    go_on: &F,
    run: &RunWords<'_>,
    outputs: &Outputs,
    depot: &mut D,
    course: Course,
    buffers: Option<StateBuffers>,
) -> RunOutcome
    requires may { (m : _) (to : ℕ) → CanGoOn m.now to → F.pre go_on.now m to }
    requires goes { (m : _) (to : ℕ) (after : _) → F.post go_on.now m to tt after → WentOn m.now to after.now }
    requires end { IsEnd run.now.cycles }
    requires before { cycle_of course < run.now.cycles }
    requires start { IsAtStart course }
    requires begun { AreBegun (shown_run run.now) (D.state depot.old).begun outputs.now }
    requires buffers { CanSave (shown_run run.now) buffers }
    ensures cause { RunCause (start_in course) (shown_run run.now) (D.state depot.old) (D.state depot.new) result }
    ensures memory { result ≢ RunOutcome.Memory }
    ensures files { D.observable → (first : Files) → Holds (shown_run run.now) first (D.state depot.old).files nothing
        → RunLeaves (start_in course) (shown_run run.now) first (D.state depot.new).files result }
{
    let mut course = course;
    match append_head(run, outputs, depot, &mut course) {
        Ok(()) => run_on(go_on, run, outputs, depot, course, buffers),
        Err(outcome) => outcome,
    }
}

/// How many frames of a region are finished below a cycle.
fn count_frames(pal: bool, cycles: u64) -> u64
    ensures { result ≡ count_of_frames pal cycles }
{
    let last = if cycles % frame_cycles(pal) > finished_at(pal) {
        1
    } else {
        0
    };
    cycles / frame_cycles(pal) + last
}

/// How many frames of a region a run from a cycle to another finishes.
pub(crate) fn frames_between(pal: bool, from: u64, end: u64) -> u64
    ensures { result ≡ frames_between pal from end }
{
    count_frames(pal, end).saturating_sub(count_frames(pal, from))
}

/// How many pairs of samples are made below a cycle.
fn count_pairs(cycles: u64) -> u64
    ensures { result ≡ pairs_of cycles }
{
    16 * (cycles.saturating_sub(1) / BATCH)
}

/// How many pairs of samples a run from a cycle to another has.
pub fn pairs_between(from: u64, end: u64) -> u64
    ensures { result ≡ pairs_between from end }
{
    count_pairs(end).saturating_sub(count_pairs(from))
}

/// Appends the head of the sound file, whose sizes are those of the whole run.
fn append_head<D: Depot>(
    run: &RunWords<'_>,
    outputs: &Outputs,
    depot: &mut D,
    course: &mut Course,
) -> Result<(), RunOutcome>
    requires end { IsEnd run.now.cycles }
    requires before { cycle_of course.old < run.now.cycles }
    requires start { IsAtStart course.old }
    requires begun { AreBegun (shown_run run.now) (D.state depot.old).begun outputs.now }
    ensures machine { course.new.machine ≡ course.old.machine }
    ensures accesses { course.new.accesses ≡ course.old.accesses }
    ensures files { OnOk result (D.observable → (first : Files) → Holds (shown_run run.now) first (D.state depot.old).files nothing
        → HoldsUntil (start_in course.old) (shown_run run.now) first (D.state depot.new).files (cycle_of course.old)) }
    ensures err { IfErr result (IsWriteFault (shown_run run.now) (D.state depot.old) (D.state depot.new)) }
    ensures err_files { OnErr result (D.observable → (first : Files) → Holds (shown_run run.now) first (D.state depot.old).files nothing
        → LeavesParts (shown_run run.now) first (D.state depot.new).files
        (pieces_of (start_in course.old) run.now.cycles)) }
    ensures goes_on { GoesOn (D.state depot.old) (D.state depot.new) }
{
    course.pairs.clear();
    let pairs = pairs_between(course.machine.at(), run.cycles);
    wav_head(pairs as u32, course.machine.pal(), &mut course.pairs);
    append(run, outputs, depot, Output::Sound, course.pairs.as_slice())
}

/// A segment has a frame's cycles at most. Where the one ends that begins at the cycle `at` of a run of a
/// region to `end`.
pub(crate) fn segment_end(pal: bool, at: u64, end: u64) -> u64
    requires { at ≤ last_cycle }
    ensures { result ≡ limits.segment_end pal at end }
{
    (at + frame_cycles(pal)).min(end)
}

/// Runs on for a segment, and appends what it makes.
fn run_segment<F: Fn(&mut Machine, u64), D: Depot>(
    go_on: &F,
    run: &RunWords<'_>,
    outputs: &Outputs,
    depot: &mut D,
    course: &mut Course,
) -> Result<(), RunOutcome>
    requires may { (m : _) (to : ℕ) → CanGoOn m.now to → F.pre go_on.now m to }
    requires goes { (m : _) (to : ℕ) (after : _) → F.post go_on.now m to tt after → WentOn m.now to after.now }
    requires end { IsEnd run.now.cycles }
    requires before { cycle_of course.old < run.now.cycles }
    requires underway { IsUnderway course.old }
    requires begun { AreBegun (shown_run run.now) (D.state depot.old).begun outputs.now }
    ensures cycle { OnOk result (cycle_of course.new ≡ limits.segment_end course.old.machine.console.pal (cycle_of course.old) run.now.cycles) }
    ensures underway { OnOk result ((start : Start) → CameFrom start course.old → CameFrom start course.new) }
    ensures files { OnOk result (D.observable → (start : Start) (first : Files) → CameFrom start course.old
        → HoldsUntil start (shown_run run.now) first (D.state depot.old).files (cycle_of course.old)
        → HoldsUntil start (shown_run run.now) first (D.state depot.new).files (cycle_of course.new)) }
    ensures err { IfErr result (IsWriteFault (shown_run run.now) (D.state depot.old) (D.state depot.new)) }
    ensures err_files { IfErr result (λ outcome. D.observable → (start : Start) (first : Files) → CameFrom start course.old
        → HoldsUntil start (shown_run run.now) first (D.state depot.old).files (cycle_of course.old)
        → RunLeaves start (shown_run run.now) first (D.state depot.new).files outcome) }
    ensures goes_on { GoesOn (D.state depot.old) (D.state depot.new) }
{
    let end = segment_end(course.machine.pal(), course.machine.at(), run.cycles);
    advance(go_on, course, end);
    append_all(
        run,
        outputs,
        depot,
        course.frames.as_slice(),
        course.pairs.as_slice(),
        course.records.as_slice(),
    )
}

/// Runs from its start to the end in as few segments as reach it, appends what each makes, and saves
/// the state that it results in, if it is asked for.
fn run_on<F: Fn(&mut Machine, u64), D: Depot>(
    go_on: &F,
    run: &RunWords<'_>,
    outputs: &Outputs,
    depot: &mut D,
    course: Course,
    buffers: Option<StateBuffers>,
) -> RunOutcome
    requires may { (m : _) (to : ℕ) → CanGoOn m.now to → F.pre go_on.now m to }
    requires goes { (m : _) (to : ℕ) (after : _) → F.post go_on.now m to tt after → WentOn m.now to after.now }
    requires end { IsEnd run.now.cycles }
    requires before { cycle_of course < run.now.cycles }
    requires start { IsAtStart course }
    requires begun { AreBegun (shown_run run.now) (D.state depot.old).begun outputs.now }
    requires buffers { CanSave (shown_run run.now) buffers }
    ensures cause { RunCause (start_in course) (shown_run run.now) (D.state depot.old) (D.state depot.new) result }
    ensures memory { result ≢ RunOutcome.Memory }
    ensures files { D.observable → (first : Files)
        → HoldsUntil (start_in course) (shown_run run.now) first (D.state depot.old).files (cycle_of course)
        → RunLeaves (start_in course) (shown_run run.now) first (D.state depot.new).files result }
{
    let from = course.machine.at();
    let pal = course.machine.pal();
    lists_end_as_run(&course.machine);
    let mut course = course;
    'segments: while course.machine.at() < run.cycles {
        if let Err(outcome) = run_segment(go_on, run, outputs, depot, &mut course) {
            return outcome;
        }
    }
    states_keep_laws();
    kept(&course.machine);
    match save(run, outputs, depot, &course.machine, buffers) {
        Ok(()) => RunOutcome::Done {
            from,
            frames: frames_between(pal, from, run.cycles),
            accesses: course.accesses,
            halted: course.machine.main_chip().halted(),
        },
        Err(outcome) => outcome,
    }
}
