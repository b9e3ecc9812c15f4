ghost use Rattle.std.specs.Prelude.{◌≡◌, ◌≤◌};
ghost use Rattle.m68k_time.specs.Addresses as addresses;

use md_word::{Mode, Size};

/// The time to calculate an operand's address and to read it.
#[inline(always)]
pub(crate) fn address_time(size: Size, mode: Mode) -> u32
    ensures value { result ≡ addresses.address_time size mode }
    ensures most { result ≤ 16 }
{
    match mode {
        Mode::Data(_) | Mode::Address(_) => 0,
        Mode::Indirect(_) | Mode::PostInc(_) | Mode::Immediate(_) => by_size(size, 4, 8),
        Mode::PreDec(_) => by_size(size, 6, 10),
        Mode::Displaced(..) | Mode::AbsShort(_) | Mode::PcDisplaced(_) => by_size(size, 8, 12),
        Mode::Indexed(..) | Mode::PcIndexed(..) => by_size(size, 10, 14),
        Mode::AbsLong(_) => by_size(size, 12, 16),
    }
}

/// The time of the target of MOVE, which is not read: the decrement takes no time of its own.
#[inline(always)]
pub(crate) fn target_time(size: Size, mode: Mode) -> u32
    ensures value { result ≡ addresses.target_time size mode }
    ensures most { result ≤ 16 }
{
    match mode {
        Mode::PreDec(_) => by_size(size, 4, 8),
        mode => address_time(size, mode),
    }
}

/// A time of bytes and words, or one of longs.
pub(crate) fn by_size(size: Size, short: u32, long: u32) -> u32
    ensures { result ≡ addresses.by_size size short long }
{
    match size {
        Size::Byte | Size::Word => short,
        Size::Long => long,
    }
}

/// A time where the operand is a register, or one where it is in memory.
pub(crate) fn placed(mode: Mode, register: u32, memory: u32) -> u32
    ensures { result ≡ addresses.placed mode register memory }
{
    match mode {
        Mode::Data(_) | Mode::Address(_) => register,
        _ => memory,
    }
}

/// A time where the operand is a register or a number, or one where it is in memory.
pub(crate) fn by_source(mode: Mode, inside: u32, memory: u32) -> u32
    ensures { result ≡ addresses.by_source mode inside memory }
{
    match mode {
        Mode::Data(_) | Mode::Address(_) | Mode::Immediate(_) => inside,
        _ => memory,
    }
}
