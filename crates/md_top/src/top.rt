ghost use Rattle.std.specs.Prelude.{map, string_bytes};
ghost use Rattle.md_top.specs.Answers.{Answers, Causes};
ghost use Rattle.md_top.specs.Laws.{ProgramLaws};
ghost use Rattle.md_args.specs.Commands.{command_of};

use crate::finishing::{finish, finish_one};
use crate::laws::program_laws;
use crate::preparing::prepare;
use md_outer::{Depot, Gate, Sink};
use std::alloc::Global;
use std::sync::Wait;
use std::thread::Threads;

/// Does what the words of the command line ask for, and answers the status that the program ends
/// with.
///
/// The words are those after the program's name. `info ROM` puts the lines of the header of the
/// cartridge ROM. `run ROM --cycles N`, with `--in P`, `--load S`, `--save T`, `--frames F`,
/// `--sound W` and `--journal J` where they are wanted, runs the cartridge ROM up to the master cycle
/// N, 1 to 549,755,813,888, with what the recording P presses on the pads: from power-on, or from the
/// machine that the saved state S keeps. It writes its finished frames into F, its sound into W, the
/// journal of its accesses into J and its state at N into T. Files are fetched from the depot and
/// written to it, a segment of at most 896,040 cycles after the other; the lines are put into `out`.
/// `vgm JOURNAL OUT` writes the VGM file of a journal's sound writes, and `play VGM OUT` the sound file of a VGM
/// file; with `--pal` by the master clock of PAL. `asm SOURCE OUT` assembles a source, with `--list L` for the list
/// of its instructions. `debug ROM SCRIPT` obeys the lines of a script of the debugger, at power-on of the
/// cartridge, and puts the reply to each when it was obeyed. `rollback ROM INPUTS --window W` obeys the lines of
/// what two players press, and puts what their session results in.
/// It is `prepare` and then `finish_one`, and waits for nobody: whatever `--workers` asks for, one worker makes the
/// run.
pub fn drive_one<D: Depot, S: Sink>(
    alloc: Global,
    words: &Vec<String>,
    depot: &mut D,
    out: &mut S,
) -> u8
    ensures answer { Answers D.observable S.observable (command_of (map string_bytes words.now.items))
        (D.state depot.old) (D.state depot.new) (S.state out.old) (S.state out.new) result }
    ensures causes { Causes D.observable (command_of (map string_bytes words.now.items))
        (D.state depot.old) (D.state depot.new) (S.state out.old) (S.state out.new) result }
    ensures laws { ProgramLaws }
{
    program_laws();
    let prepared = prepare(alloc, words, depot, out);
    finish_one(prepared, depot, out)
}

/// Does the same as `drive_one`, a run with as many workers as `--workers K` asks for, 1 to 5: it is `prepare` and
/// then `finish`.
///
/// One worker, and where nothing is said of them, is `drive_one`. Of several the caller is the last;
/// each other one is a thread, and passes the gate before it looks for the turn of a chip. The
/// threads of a segment have ended before its records are written. The call may wait for them; where
/// it returns, its answer is that of `drive_one`.
pub fn drive<D: Depot, S: Sink, G: Gate, Rt: Threads + Wait + Sync>(
    rt: &Rt,
    alloc: Global,
    words: &Vec<String>,
    depot: &mut D,
    out: &mut S,
    gate: &G,
) -> u8
    ensures answer { Answers D.observable S.observable (command_of (map string_bytes words.now.items))
        (D.state depot.old) (D.state depot.new) (S.state out.old) (S.state out.new) result }
    ensures causes { Causes D.observable (command_of (map string_bytes words.now.items))
        (D.state depot.old) (D.state depot.new) (S.state out.old) (S.state out.new) result }
    ensures laws { ProgramLaws }
{
    program_laws();
    let prepared = prepare(alloc, words, depot, out);
    finish(rt, prepared, depot, out, gate)
}
