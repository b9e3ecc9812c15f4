ghost use Rattle.std.specs.Prelude.{◌≡◌, ◌+◌, ◌<◌, ◌≤◌, ◌≢◌, IfOk};
ghost use Rattle.arrayvec.specs.ArrayVec.{array_vec_len};
ghost use Rattle.md_word.specs.Modes.{IsMode};
ghost use Rattle.md_word.specs.Width.{modulus_of};
ghost use Rattle.md_word.specs.declared.size.Size.TheVariants.{Byte};
ghost use Rattle.m68k_ea.specs.Addresses.{effective_address};
ghost use Rattle.m68k_ea.specs.Places.{IsPlace, place_of};
ghost use Rattle.m68k_ea.specs.Steps.{stepped};
ghost use Rattle.m68k_access.specs.Clauses.{Leaves, Loads, Meets, done_of, memory_of};
ghost use Rattle.m68k_access.specs.Operands as operands;

use crate::accesses::{read, write};
use crate::{Context, Progress, Stop};
use m68k_ea::{Place, place};
use md_word::{Mode, Regs, Size};

/// The number of the active stack pointer, A7.
const STACK: u8 = 7;

/// The place of a mode's operand, before the instruction changes a register. `pc` is where the
/// mode's extension words are.
#[inline(always)]
pub fn locate(mode: Mode, size: Size, pc: u32, regs: &Regs) -> Place
    requires { IsMode mode }
    ensures place { result ≡ place_of mode size regs.now pc }
    ensures within { IsPlace size result }
{
    place(mode, size, regs, pc)
}

/// The address that a mode names, odd or even; 0 of a register or immediate data.
pub fn effective(mode: Mode, size: Size, pc: u32, regs: &Regs) -> u32
    requires { IsMode mode }
    ensures { result ≡ effective_address mode size regs.now pc }
{
    match place(mode, size, regs, pc) {
        Place::Memory(address) => address,
        Place::Odd(address) => address,
        Place::Register(_) => 0,
        Place::Immediate(_) => 0,
    }
}

/// Reads the operand that is at a place.
/// Stops where an access waits for its answer, or a word or long has an odd address.
#[inline(always)]
#[tactic(auto, unfolding(crate::specs::Operands::fetch))]
pub fn fetch(
    size: Size,
    place: Place,
    context: &Context,
    regs: &Regs,
    progress: &mut Progress,
) -> Result<u32, Stop>
    requires { IsPlace size place }
    ensures value { Meets result (done_of progress.new)
        (operands.fetch size place regs.now (memory_of context.now) (done_of progress.old)) }
    ensures below { IfOk result (λ value. value < modulus_of size) }
    ensures written { array_vec_len progress.new.writes ≤ array_vec_len progress.old.writes }
{
    match place {
        Place::Register(number) => Ok(size.low(regs.register(number))),
        Place::Memory(address) => read(size, address, context, progress),
        Place::Immediate(value) => Ok(value),
        Place::Odd(address) => Err(Stop::Odd {
            address,
            read: true,
            used: progress.used,
        }),
    }
}

/// Puts a value of a size into a register, whose upper part stays.
#[inline(always)]
pub fn set_part(size: Size, number: u8, value: u32, regs: &mut Regs)
    requires number { number < 16 }
    requires value { value < modulus_of size }
    ensures { regs.new ≡ operands.with_part size number value regs.old }
{
    let old = regs.register(number);
    regs.set_register(number, size.merge(old, value));
}

/// Moves the register of (An)+ or −(An).
#[inline(always)]
pub fn step(mode: Mode, size: Size, regs: &mut Regs)
    requires { IsMode mode }
    ensures { regs.new ≡ stepped mode size regs.old }
{
    m68k_ea::step(mode, size, regs);
}

/// Writes a value to a place. Of a register the upper part stays; immediate data stays whole.
/// Stops where an access waits for its answer, or a word or long has an odd address.
#[inline(always)]
#[tactic(auto, unfolding(crate::specs::Operands::put, crate::specs::Operands::stored))]
pub fn put(
    size: Size,
    place: Place,
    value: u32,
    context: &Context,
    regs: &mut Regs,
    progress: &mut Progress,
) -> Result<(), Stop>
    requires place { IsPlace size place }
    requires value { value < modulus_of size }
    requires room { array_vec_len progress.old.writes + operands.bytes_of size ≤ 80 }
    ensures value { Leaves result regs.new (done_of progress.new)
        (operands.put size place value regs.old (memory_of context.now) (done_of progress.old)) }
    ensures written { array_vec_len progress.new.writes ≤ array_vec_len progress.old.writes + operands.bytes_of size }
{
    match place {
        Place::Register(number) => {
            set_part(size, number, value, regs);
            Ok(())
        }
        Place::Memory(address) => write(size, address, value, context, progress),
        Place::Immediate(_) => Ok(()),
        Place::Odd(address) => Err(Stop::Odd {
            address,
            read: false,
            used: progress.used,
        }),
    }
}

/// Reads the operand that a mode names, and moves the register of (An)+ or −(An).
/// Stops where an access waits for its answer, or a word or long has an odd address.
#[inline(always)]
#[tactic(auto, unfolding(crate::specs::Operands::load))]
pub fn load(
    mode: Mode,
    size: Size,
    pc: u32,
    context: &Context,
    regs: &mut Regs,
    progress: &mut Progress,
) -> Result<u32, Stop>
    requires { IsMode mode }
    ensures value { Loads result regs.new (done_of progress.new)
        (operands.load mode size pc regs.old (memory_of context.now) (done_of progress.old)) }
    ensures below { IfOk result (λ value. value < modulus_of size) }
    ensures written { array_vec_len progress.new.writes ≤ array_vec_len progress.old.writes }
{
    let from = locate(mode, size, pc, regs);
    let value = fetch(size, from, context, regs, progress)?;
    step(mode, size, regs);
    Ok(value)
}

/// How many bytes an operand of a size has.
pub fn bytes_of(size: Size) -> u32
    ensures { result ≡ operands.bytes_of size }
{
    match size {
        Size::Byte => 1,
        Size::Word => 2,
        Size::Long => 4,
    }
}

/// Pushes a word or long on the active stack: A7 is lowered, and the value written there.
/// Stops where an access waits for its answer, or a word or long has an odd address.
#[tactic(auto, using(crate::proofs::Stack::stack_set), unfolding(crate::specs::Operands::push))]
pub fn push(
    size: Size,
    value: u32,
    context: &Context,
    regs: &mut Regs,
    progress: &mut Progress,
) -> Result<(), Stop>
    requires larger { size ≢ Byte }
    requires value { value < modulus_of size }
    requires room { array_vec_len progress.old.writes + operands.bytes_of size ≤ 80 }
    ensures value { Leaves result regs.new (done_of progress.new)
        (operands.push size value regs.old (memory_of context.now) (done_of progress.old)) }
    ensures written { array_vec_len progress.new.writes ≤ array_vec_len progress.old.writes + operands.bytes_of size }
{
    let to = regs.address(STACK).wrapping_sub(bytes_of(size));
    write(size, to, value, context, progress)?;
    regs.set_address(STACK, to);
    Ok(())
}

/// Pulls a word or long from the active stack: it is read at A7, which is then raised past it.
/// Stops where an access waits for its answer, or a word or long has an odd address.
#[tactic(auto, using(crate::proofs::Stack::stack_set), unfolding(crate::specs::Operands::pull))]
pub fn pull(
    size: Size,
    context: &Context,
    regs: &mut Regs,
    progress: &mut Progress,
) -> Result<u32, Stop>
    requires { size ≢ Byte }
    ensures value { Loads result regs.new (done_of progress.new)
        (operands.pull size regs.old (memory_of context.now) (done_of progress.old)) }
    ensures below { IfOk result (λ value. value < modulus_of size) }
    ensures written { array_vec_len progress.new.writes ≤ array_vec_len progress.old.writes }
{
    let stack = regs.address(STACK);
    let value = read(size, stack, context, progress)?;
    regs.set_address(STACK, stack.wrapping_add(bytes_of(size)));
    Ok(value)
}
