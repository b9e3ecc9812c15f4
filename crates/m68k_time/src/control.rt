ghost use Rattle.std.specs.Prelude.{◌≡◌, ◌≤◌};
ghost use Rattle.m68k_time.specs.Addresses.{control_times_of};

use md_word::Mode;

/// LEA.
pub(crate) fn lea_time(mode: Mode) -> u32
    ensures value { result ≡ (control_times_of mode).lea }
    ensures most { result ≤ 12 }
{
    match mode {
        Mode::Indirect(_) => 4,
        Mode::Displaced(..) | Mode::AbsShort(_) | Mode::PcDisplaced(_) => 8,
        Mode::Indexed(..) | Mode::PcIndexed(..) | Mode::AbsLong(_) => 12,
        _ => 0,
    }
}

/// JMP.
pub(crate) fn jmp_time(mode: Mode) -> u32
    ensures value { result ≡ (control_times_of mode).jmp }
    ensures most { result ≤ 14 }
{
    match mode {
        Mode::Indirect(_) => 8,
        Mode::Displaced(..) | Mode::AbsShort(_) | Mode::PcDisplaced(_) => 10,
        Mode::Indexed(..) | Mode::PcIndexed(..) => 14,
        Mode::AbsLong(_) => 12,
        _ => 0,
    }
}

/// PEA, which pushes what LEA calculates.
pub(crate) fn pea_time(mode: Mode) -> u32
    ensures { result ≡ (control_times_of mode).pea }
{
    match lea_time(mode) {
        0 => 0,
        time => time + 8,
    }
}

/// JSR, which pushes and then goes as JMP does.
pub(crate) fn jsr_time(mode: Mode) -> u32
    ensures { result ≡ (control_times_of mode).jsr }
{
    match jmp_time(mode) {
        0 => 0,
        time => time + 8,
    }
}

/// MOVEM to memory, without its registers.
pub(crate) fn store_time(mode: Mode) -> u32
    ensures value { result ≡ (control_times_of mode).to_memory }
    ensures most { result ≤ 16 }
{
    match mode {
        Mode::Indirect(_) | Mode::PreDec(_) => 8,
        Mode::Displaced(..) | Mode::AbsShort(_) => 12,
        Mode::Indexed(..) => 14,
        Mode::AbsLong(_) => 16,
        _ => 0,
    }
}

/// MOVEM to registers, without them.
pub(crate) fn load_time(mode: Mode) -> u32
    ensures value { result ≡ (control_times_of mode).to_registers }
    ensures most { result ≤ 20 }
{
    match mode {
        Mode::Indirect(_) | Mode::PostInc(_) => 12,
        Mode::Displaced(..) | Mode::AbsShort(_) | Mode::PcDisplaced(_) => 16,
        Mode::Indexed(..) | Mode::PcIndexed(..) => 18,
        Mode::AbsLong(_) => 20,
        _ => 0,
    }
}
