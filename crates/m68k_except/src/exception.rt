ghost use Rattle.std.specs.Prelude.{◌≡◌, ◌+◌, ◌≤◌, ◌++◌, ◌∷◌, [], length};
ghost use Rattle.arrayvec.specs.ArrayVec.{array_vec_len};
ghost use Rattle.m68k_except.specs.Frames as frames;

use crate::answer::Frame;
use arrayvec::ArrayVec;
use md_word::Regs;

/// The frame of an exception with this vector number.
///
/// `vector` is the long that is at the vector, `opcode` the instruction's first word, and
/// `address` and `read` are the access of an address error (vector number 3). `regs` are the
/// registers before the exception, with the program counter that it saves; for an address error
/// with that of the instruction. Source: M68000 User's Manual, section 6.
pub fn frame(cause: u8, vector: u32, regs: &Regs, opcode: u16, address: u32, read: bool) -> Frame
    ensures { frames.words_in result ≡ frames.frame_of cause vector regs.now opcode address read }
{
    let odd_handler = cause == 3 && vector % 2 == 1;
    if regs.ssp % 2 == 1 || odd_handler {
        return Frame::Halted;
    }
    let mut words = ArrayVec::new();
    if cause == 3 {
        push_short(regs.pc.wrapping_add(2), regs, &mut words);
        words.push(first_word(regs, opcode));
        push_long(address, &mut words);
        words.push(access_word(regs, read));
    } else {
        push_short(regs.pc, regs, &mut words);
    }
    Frame::Words(words)
}

/// Pushes the program counter and the status register.
fn push_short(pc: u32, regs: &Regs, words: &mut ArrayVec<u16, 7>)
    requires { array_vec_len words.old + 3 ≤ 7 }
    ensures items { words.new.items ≡ words.old.items ++ frames.short_frame pc regs.now }
    ensures len { array_vec_len words.new ≡ array_vec_len words.old + 3 }
{
    push_long(pc, words);
    words.push(regs.sr);
}

/// Pushes a long, its upper word first.
fn push_long(long: u32, words: &mut ArrayVec<u16, 7>)
    requires { array_vec_len words.old + 2 ≤ 7 }
    ensures items { words.new.items ≡ words.old.items ++ frames.words_of long }
    ensures len { array_vec_len words.new ≡ array_vec_len words.old + 2 }
{
    words.push((long / 0x1_0000) as u16);
    words.push((long % 0x1_0000) as u16);
}

/// The first word of an instruction, which reads as all ones at an odd address.
fn first_word(regs: &Regs, opcode: u16) -> u16
    ensures { result ≡ frames.first_word regs.now opcode }
{
    if regs.pc % 2 == 1 { 0xffff } else { opcode }
}

/// How the access of an address error was made.
fn access_word(regs: &Regs, read: bool) -> u16
    ensures { result ≡ frames.access_word regs.now read }
{
    let direction = if read { 16 } else { 0 };
    let mode = if regs.is_supervisor() { 4 } else { 0 };
    let space = if regs.pc % 2 == 1 { 2 } else { 1 };
    direction + mode + space
}
