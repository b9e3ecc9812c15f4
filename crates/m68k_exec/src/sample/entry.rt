ghost use Rattle.std.specs.Prelude.{◌≡◌, ◌+◌, ◌*◌, ◌%◌, ◌<◌, ◌≤◌, length, Some, None};
ghost use Rattle.arrayvec.specs.ArrayVec.{array_vec_len};
ghost use Rattle.m68k_except.specs.Frames.{words_in};
ghost use Rattle.m68k_access.specs.Clauses.{Meets, NotOdd, SpendsAtMost, done_of, memory_of};
ghost use Rattle.m68k_exec.specs.Sample.Entries as entries;

use crate::sample::exception::Exception;
use crate::{Context, Progress, Stop};
use m68k_access::accesses::write_word;
use m68k_access::memory::word_at;
use m68k_except::{Frame, frame};
use md_word::Regs;

/// How far below the stack pointer each word of a frame is written.
const PLACES: [u32; 7] = [4, 2, 6, 8, 12, 10, 14];

/// The long at the vector of this number.
#[tactic(auto, unfolding(crate::specs::Sample::Entries::vector_at))]
fn vector_at(number: u8, context: &Context) -> u32
    ensures { result ≡ entries.vector_at number (memory_of context.now) }
{
    let at = 4 * u32::from(number);
    let high = word_at(at, context.rom, context.ram);
    let low = word_at(at + 2, context.rom, context.ram);
    u32::from(high) * 0x1_0000 + u32::from(low)
}

/// The words of an exception's frame, in the order in which they are pushed.
fn frame_for(exception: Exception, vector: u32, regs: &Regs) -> Frame
    requires { entries.IsException exception }
    ensures value { words_in result ≡ entries.frame_for exception vector regs.now }
    ensures fits { entries.Fits exception regs.now result }
{
    match exception {
        Exception::AddressError(opcode, address, read) => {
            frame(exception.number(), vector, regs, opcode, address, read)
        }
        _ => frame(exception.number(), vector, regs, 0, 0, false),
    }
}

/// Pushes the words of a frame, of a long first the word at the lower address.
#[tactic(auto, using(crate::proofs::Pushes::push_step, crate::proofs::Pushes::push_end))]
fn push_words(
    words: &[u16],
    stack: u32,
    context: &Context,
    progress: &mut Progress,
) -> Result<(), Stop>
    requires few { length words.now ≤ 7 }
    requires even { stack % 2 ≡ 0 }
    requires room { array_vec_len progress.old.writes ≤ 64 }
    ensures value { Meets result (done_of progress.new) (entries.pushed (length words.now) 0 words.now stack (memory_of context.now) (done_of progress.old)) }
    ensures spent { SpendsAtMost progress.old progress.new (length words.now) 14 }
    ensures even { NotOdd result }
{
    'words: for place in 0..words.len() {
        let to = stack.wrapping_sub(PLACES[place]);
        write_word(to, words[place], context, progress)?;
    }
    Ok(())
}

/// Pushes a frame, and goes to the handler.
#[tactic(auto, unfolding(crate::specs::Sample::Entries::enter_with))]
fn enter_with(
    exception: Exception,
    vector: u32,
    words: &[u16],
    context: &Context,
    regs: &Regs,
    progress: &mut Progress,
) -> Result<Option<Regs>, Stop>
    requires exception { entries.IsException exception }
    requires few { length words.now ≤ 7 }
    requires even { regs.now.ssp % 2 ≡ 0 }
    requires room { array_vec_len progress.old.writes ≤ 64 }
    ensures value { Meets result (done_of progress.new) (entries.enter_with exception vector words.now regs.now (memory_of context.now) (done_of progress.old)) }
    ensures spent { SpendsAtMost progress.old progress.new (length words.now) 14 }
    ensures even { NotOdd result }
{
    let stack = regs.ssp;
    push_words(words, stack, context, progress)?;
    Ok(Some(Regs {
        ssp: stack.wrapping_sub(2 * words.len() as u32),
        pc: vector,
        sr: exception.status(regs.sr),
        ..*regs
    }))
}

/// Begins an exception, from the registers with the program counter that it saves: gives those that its handler
/// finds. None where the processor halts, since the stack pointer is odd, or the handler of an address error is.
/// Stops where a push waits for its answer.
#[tactic(auto, unfolding(crate::specs::Sample::Entries::enter))]
pub fn enter(
    exception: Exception,
    context: &Context,
    regs: &Regs,
    progress: &mut Progress,
) -> Result<Option<Regs>, Stop>
    requires exception { entries.IsException exception }
    requires room { array_vec_len progress.old.writes ≤ 64 }
    ensures value { Meets result (done_of progress.new) (entries.enter exception regs.now (memory_of context.now) (done_of progress.old)) }
    ensures spent { SpendsAtMost progress.old progress.new (entries.pushes_of exception) 14 }
    ensures even { NotOdd result }
{
    let vector = vector_at(exception.number(), context);
    match frame_for(exception, vector, regs) {
        Frame::Halted => Ok(None),
        Frame::Words(words) => enter_with(
            exception,
            vector,
            words.as_slice(),
            context,
            regs,
            progress,
        ),
    }
}
