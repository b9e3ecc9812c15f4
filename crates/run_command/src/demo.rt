ghost use Rattle.std.specs.Prelude.{◌≡◌, ℕ, ◌<◌, IfOk};
ghost use Rattle.md_chips.specs.Starts.{Start};
ghost use Rattle.run_command.specs.Courses.{CameFrom, IsAtStart, IsFresh, IsUnderway, cycle_of, start_at, start_in};
ghost use Rattle.run_command.specs.Demos.{HaveUntil, IsSummary, demo_start};
ghost use Rattle.run_command.specs.Limits.{IsEnd};
ghost use Rattle.run_command.specs.Limits as limits;
ghost use Rattle.run_command.specs.Workers.{CanGoOn, WentOn};
ghost use Rattle.md_args.specs.Shown.{shown_demo};
ghost use Rattle.md_demo.specs.Demo as meaning;

use crate::course::Course;
use crate::hashers::Hashers;
use crate::inputs::Inputs;
use crate::laws::states_keep_laws;
use crate::run_on::{frames_between, segment_end};
use crate::segment::advance;
use crate::starting::power_on;
use crate::summary::Summary;
use md_args::DemoWords;
use md_demo::demo_cart;
use md_machine::Machine;
use md_machine::laws::lists_end_as_run;
use md_pads::Recording;
use md_word::NoMemory;
use rom_header::Cart;
use save_state::laws::kept;
use std::alloc::Global;

/// The machine with the demonstration cartridge that the words ask for, at power-on. The only error is out of memory.
pub fn demo_machine(alloc: Global, demo: &DemoWords) -> Result<Machine, NoMemory>
    ensures start { IfOk result (λ machine. start_at machine ≡ demo_start (shown_demo demo.now)) }
    ensures fresh { IfOk result IsFresh }
{
    let cart = accepted_cart(alloc, demo.number)?;
    let recording = Recording::empty(alloc);
    power_on(
        alloc,
        Inputs {
            cart,
            recording,
            pal: demo.pal,
        },
    )
}

/// The demonstration cartridge of a number. None is refused.
fn accepted_cart(alloc: Global, number: u64) -> Result<Cart, NoMemory>
    ensures { IfOk result (λ cart. cart ≡ meaning.demo_cart number) }
{
    let bytes = demo_cart(alloc, number)?;
    match Cart::accept(alloc, bytes) {
        Ok(cart) => Ok(cart),
        Err(_) => unreachable!(),
    }
}

/// Runs from its start to the end in as few segments as reach it, and sums up what each makes.
pub fn sum_up<F: Fn(&mut Machine, u64)>(go_on: &F, end: u64, course: Course) -> Summary
    requires may { (m : _) (to : ℕ) → CanGoOn m.now to → F.pre go_on.now m to }
    requires goes { (m : _) (to : ℕ) (after : _) → F.post go_on.now m to tt after → WentOn m.now to after.now }
    requires end { IsEnd end }
    requires before { cycle_of course < end }
    requires start { IsAtStart course }
    ensures { IsSummary (start_in course) end result }
{
    let from = course.machine.at();
    let pal = course.machine.pal();
    lists_end_as_run(&course.machine);
    let mut course = course;
    let mut hashers = Hashers::new();
    'segments: while course.machine.at() < end {
        sum_segment(go_on, end, &mut course, &mut hashers);
    }
    states_keep_laws();
    kept(&course.machine);
    Summary {
        frames: frames_between(pal, from, end),
        accesses: course.accesses,
        halted: course.machine.main_chip().halted(),
        digests: hashers.digests(),
    }
}

/// Runs on for a segment, and takes what it makes.
fn sum_segment<F: Fn(&mut Machine, u64)>(
    go_on: &F,
    end: u64,
    course: &mut Course,
    hashers: &mut Hashers,
)
    requires may { (m : _) (to : ℕ) → CanGoOn m.now to → F.pre go_on.now m to }
    requires goes { (m : _) (to : ℕ) (after : _) → F.post go_on.now m to tt after → WentOn m.now to after.now }
    requires end { IsEnd end }
    requires before { cycle_of course.old < end }
    requires underway { IsUnderway course.old }
    ensures cycle { cycle_of course.new ≡ limits.segment_end course.old.machine.console.pal (cycle_of course.old) end }
    ensures underway { (start : Start) → CameFrom start course.old → CameFrom start course.new }
    ensures taken { (start : Start) → CameFrom start course.old → HaveUntil start (cycle_of course.old) hashers.old
        → HaveUntil start (cycle_of course.new) hashers.new }
{
    let to = segment_end(course.machine.pal(), course.machine.at(), end);
    advance(go_on, course, to);
    hashers.update(
        course.frames.as_slice(),
        course.pairs.as_slice(),
        course.records.as_slice(),
    );
}
