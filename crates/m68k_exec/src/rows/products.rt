ghost use Rattle.std.specs.Prelude.{◌≡◌, ◌<◌, ◌%◌, ◌*◌, ◌^◌, ◌≤◌};
ghost use Rattle.arrayvec.specs.ArrayVec.{array_vec_len};
ghost use Rattle.md_word.specs.Modes.{IsMode};
ghost use Rattle.md_word.specs.declared.size.Size.TheVariants.{Word};
ghost use Rattle.m68k_access.specs.Clauses.{Ends, done_of, memory_of};
ghost use Rattle.m68k_exec.specs.Rows.Products as products;

use crate::{Context, Outcome, Progress, Stop};
use m68k_access::operands::load;
use m68k_access::shapes::change_data;
use md_word::{Mode, Regs, Size, Task};

/// MULU.
#[tactic(auto, unfolding(crate::specs::Rows::Products::mulu))]
pub fn mulu(
    number: u8,
    mode: Mode,
    start: u32,
    context: &Context,
    regs: &mut Regs,
    progress: &mut Progress,
) -> Result<Outcome, Stop>
    requires number { number < 8 }
    requires mode { IsMode mode }
    ensures value { Ends result regs.new (done_of progress.new) (products.mulu number mode start regs.old (memory_of context.now) (done_of progress.old)) }
    ensures written { array_vec_len progress.new.writes ≤ array_vec_len progress.old.writes }
{
    let pc = start.wrapping_add(2);
    let source = load(mode, Size::Word, pc, context, regs, progress)?;
    let after = change_data(Task::Mulu, Size::Long, source, number, regs);
    Ok(Outcome {
        count: source.count_ones() as u8,
        ..after
    })
}

/// How many neighbours differ in a word with a 0 below its lowest bit.
#[tactic(auto, unfolding(crate::specs::Rows::Products::unlike_neighbours))]
fn unlike_neighbours(word: u32) -> u8
    requires { word < 0x1_0000 }
    ensures { result ≡ products.unlike_neighbours word }
{
    ((word ^ word * 2) % 0x1_0000).count_ones() as u8
}

/// MULS.
#[tactic(auto, unfolding(crate::specs::Rows::Products::muls))]
pub fn muls(
    number: u8,
    mode: Mode,
    start: u32,
    context: &Context,
    regs: &mut Regs,
    progress: &mut Progress,
) -> Result<Outcome, Stop>
    requires number { number < 8 }
    requires mode { IsMode mode }
    ensures value { Ends result regs.new (done_of progress.new) (products.muls number mode start regs.old (memory_of context.now) (done_of progress.old)) }
    ensures written { array_vec_len progress.new.writes ≤ array_vec_len progress.old.writes }
{
    let pc = start.wrapping_add(2);
    let source = load(mode, Size::Word, pc, context, regs, progress)?;
    let after = change_data(Task::Muls, Size::Long, source, number, regs);
    Ok(Outcome {
        count: unlike_neighbours(source),
        ..after
    })
}
