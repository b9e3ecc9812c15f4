ghost use Rattle.std.specs.Prelude.{◌≡◌, ℕ, ◌+◌, ◌<◌, ◌≤◌, ◌++◌, IfOk};
ghost use Rattle.md_machine.specs.Outputs.{frames_bytes, journal_bytes, sound_bytes};
ghost use Rattle.md_chips.specs.Starts.{Start};
ghost use Rattle.run_command.specs.Courses.{CameFrom, IsAtStart, IsFresh, IsUnderway, cycle_of, start_at, start_in};
ghost use Rattle.md_word.specs.Clock.{last_cycle};
ghost use Rattle.run_command.specs.Limits.{segment_cycles};
ghost use Rattle.run_command.specs.Runs.{entries_from, media_from};
ghost use Rattle.run_command.specs.Workers.{CanGoOn, WentOn};

use crate::course::Course;
use crate::laws::runs_keep_laws;
use machine_laws::heard;
use md_machine::{Machine, most_entries, most_pairs};
use md_word::NoMemory;
use md_word::region::picture_length;
use std::alloc::Global;

/// The bytes of the head of a frame.
const HEAD: usize = 15;

/// The run of a machine at its start. All memory that it ever needs is taken here.
pub fn begin(alloc: Global, machine: Machine) -> Result<Course, NoMemory>
    requires fresh { IsFresh machine }
    requires near { machine.at ≤ last_cycle }
    ensures start { IfOk result (λ course. start_in course ≡ start_at machine) }
    ensures underway { IfOk result IsAtStart }
{
    runs_keep_laws(&machine);
    heard::levels_are_heard(machine.cart());
    heard::sides_are_heard(machine.cart());
    let pal = machine.pal();
    let frames = Vec::with_capacity(alloc, HEAD + picture_length(pal))?;
    let pairs = Vec::with_capacity(alloc, 4 * most_pairs(pal))?;
    let records = Vec::with_capacity(alloc, 16 * most_entries(pal))?;
    Ok(Course {
        machine,
        accesses: 0,
        frames,
        pairs,
        records,
    })
}

/// Brings a run to the cycle `to`, at most a segment on, and holds what it made. `go_on` makes the
/// segment.
pub(crate) fn advance<F: Fn(&mut Machine, u64)>(go_on: &F, course: &mut Course, to: u64)
    requires may { (m : _) (to : ℕ) → CanGoOn m.now to → F.pre go_on.now m to }
    requires goes { (m : _) (to : ℕ) (after : _) → F.post go_on.now m to tt after → WentOn m.now to after.now }
    requires underway { IsUnderway course.old }
    requires later { cycle_of course.old < to }
    requires near { to ≤ cycle_of course.old + segment_cycles course.old.machine.console.pal }
    requires far { to ≤ last_cycle }
    ensures cycle { cycle_of course.new ≡ to }
    ensures underway { (start : Start) → CameFrom start course.old → CameFrom start course.new }
    ensures frames { (start : Start) → CameFrom start course.old → frames_bytes start.console.pal (media_from start to).frames
        ≡ frames_bytes start.console.pal (media_from start (cycle_of course.old)).frames ++ course.new.frames.items }
    ensures pairs { (start : Start) → CameFrom start course.old → sound_bytes (media_from start to)
        ≡ sound_bytes (media_from start (cycle_of course.old)) ++ course.new.pairs.items }
    ensures records { (start : Start) → CameFrom start course.old → journal_bytes (entries_from start to)
        ≡ journal_bytes (entries_from start (cycle_of course.old)) ++ course.new.records.items }
{
    go_on(&mut course.machine, to);
    course.frames.clear();
    course.machine.drain_frames(&mut course.frames);
    course.pairs.clear();
    course.machine.drain_pairs(&mut course.pairs);
    course.records.clear();
    course.machine.drain_entries(&mut course.records);
    course.accesses += (course.records.len() / 16) as u64;
}
