//! What the form of an operand is worth in an instruction: an addressing mode, a register, a list, a number.

ghost use Rattle.std.specs.Prelude.{◌≡◌, ◌<◌, ◌≤◌, ◌%◌};
ghost use Rattle.m68k_decode.specs.Operands.{IsOperand};
ghost use Rattle.asm_m68k.specs.Building as building;
ghost use Rattle.asm_m68k.specs.Forms.{IsForm};

use crate::Form;
use m68k_decode::Displacement;
use md_word::{Mode, Size};

/// An addressing mode. A form that has none is D0.
#[tactic(auto, unfolding(crate::specs::Building::mode))]
pub(crate) fn mode(size: Size, form: Form) -> Mode
    requires { IsForm form }
    ensures value { result ≡ building.mode size form }
    ensures operand { IsOperand size result }
{
    match form {
        Form::Register(n) if n < 8 => Mode::Data(n),
        Form::Register(n) => Mode::Address(n % 8),
        Form::Indirect(n) => Mode::Indirect(n),
        Form::PostInc(n) => Mode::PostInc(n),
        Form::PreDec(n) => Mode::PreDec(n),
        Form::Displaced(n, by) => Mode::Displaced(n, (by % 65536) as u16),
        Form::Indexed(n, index, long, by) => Mode::Indexed(n, index, long, (by % 256) as u8),
        Form::Short(at) => Mode::AbsShort((at % 65536) as u16),
        Form::Long(at) => Mode::AbsLong(at),
        Form::PcDisplaced(by) => Mode::PcDisplaced((by % 65536) as u16),
        Form::PcIndexed(index, long, by) => Mode::PcIndexed(index, long, (by % 256) as u8),
        Form::Immediate(n) => Mode::Immediate(size.low(n)),
        _ => Mode::Data(0),
    }
}

/// The number of a register among the eight of its kind; 0 for any other form.
#[tactic(auto, unfolding(crate::specs::Building::register))]
pub(crate) fn register(form: Form) -> u8
    ensures value { result ≡ building.register form }
    ensures below { result < 8 }
{
    match form {
        Form::Register(n) => n % 8,
        _ => 0,
    }
}

/// A number; 0 for any other form.
#[tactic(auto, unfolding(crate::specs::Building::number))]
pub(crate) fn number(form: Form) -> u32
    ensures { result ≡ building.number form }
{
    match form {
        Form::Immediate(n) | Form::Bare(n) => n,
        _ => 0,
    }
}

/// A number from 1 to 8, as ADDQ, SUBQ and shifts have it.
pub(crate) fn quick(form: Form) -> u8
    ensures value { result ≡ building.quick form }
    ensures some { 0 < result }
    ensures most { result ≤ 8 }
{
    ((u64::from(number(form)) + 7) % 8 + 1) as u8
}

/// A list of registers as the bits of D0 to A7, D0 in bit 0.
#[tactic(auto, unfolding(crate::specs::Building::list))]
pub(crate) fn list(form: Form) -> u16
    requires { IsForm form }
    ensures { result ≡ building.list form }
{
    match form {
        Form::Register(n) => ((1u32 << n) % 65536) as u16,
        Form::Registers(up, _) => up,
        _ => 0,
    }
}

/// The same turned round: A7 in bit 0.
#[tactic(auto, unfolding(crate::specs::Building::turned))]
fn turned(form: Form) -> u16
    requires { IsForm form }
    ensures { result ≡ building.turned form }
{
    match form {
        Form::Register(n) => ((1u32 << (15 - n)) % 65536) as u16,
        Form::Registers(_, down) => down,
        _ => 0,
    }
}

/// The list of MOVEM with this mode: its bits are turned round where registers are stored by predecrement.
pub(crate) fn list_with(mode: Mode, form: Form) -> u16
    requires { IsForm form }
    ensures { result ≡ building.list_with mode form }
{
    match mode {
        Mode::PreDec(_) => turned(form),
        _ => list(form),
    }
}

/// The displacement from the end of the first word of an instruction to a target.
pub(crate) fn displacement(size: Size, at: u32, form: Form) -> Displacement
    ensures { result ≡ building.displacement size at form }
{
    let by = u64::from(number(form)) + 0x2_0000_0000 - u64::from(at) - 2;
    match size {
        Size::Byte => Displacement::Byte((by % 256) as u8),
        _ => Displacement::Word((by % 65536) as u16),
    }
}

pub(crate) fn is_list(form: Form) -> bool
    ensures { result ≡ building.is_list form }
{
    match form {
        Form::Register(_) | Form::Registers(_, _) => true,
        _ => false,
    }
}

pub(crate) fn is_ccr(form: Form) -> bool
    ensures { result ≡ building.is_ccr form }
{
    match form {
        Form::Ccr => true,
        _ => false,
    }
}

pub(crate) fn is_sr(form: Form) -> bool
    ensures { result ≡ building.is_sr form }
{
    match form {
        Form::Sr => true,
        _ => false,
    }
}

pub(crate) fn is_usp(form: Form) -> bool
    ensures { result ≡ building.is_usp form }
{
    match form {
        Form::Usp => true,
        _ => false,
    }
}

pub(crate) fn is_nothing(form: Form) -> bool
    ensures { result ≡ building.is_nothing form }
{
    match form {
        Form::Nothing => true,
        _ => false,
    }
}

pub(crate) fn is_immediate(form: Form) -> bool
    ensures { result ≡ building.is_immediate_form form }
{
    match form {
        Form::Immediate(_) => true,
        _ => false,
    }
}

pub(crate) fn is_displaced(form: Form) -> bool
    ensures { result ≡ building.is_displaced form }
{
    match form {
        Form::Displaced(_, _) => true,
        _ => false,
    }
}

pub(crate) fn is_data(form: Form) -> bool
    ensures { result ≡ building.is_data form }
{
    match form {
        Form::Register(n) => n < 8,
        _ => false,
    }
}

/// The number of a register among all sixteen; 0 for any other form.
#[tactic(auto, unfolding(crate::specs::Building::either))]
pub(crate) fn either(form: Form) -> u8
    requires { IsForm form }
    ensures value { result ≡ building.either form }
    ensures below { result < 16 }
{
    match form {
        Form::Register(n) => n,
        _ => 0,
    }
}

/// The address register of d16(An) and (An)+; 0 for any other form.
#[tactic(auto, unfolding(crate::specs::Building::base))]
pub(crate) fn base(form: Form) -> u8
    requires { IsForm form }
    ensures value { result ≡ building.base form }
    ensures below { result < 8 }
{
    match form {
        Form::Displaced(n, _) => n,
        Form::PostInc(n) => n,
        _ => 0,
    }
}

#[tactic(auto, unfolding(crate::specs::Building::offset))]
pub(crate) fn offset(form: Form) -> u16
    ensures { result ≡ building.offset form }
{
    match form {
        Form::Displaced(_, by) => (by % 65536) as u16,
        _ => 0,
    }
}

/// The low 8 bits of a number.
pub(crate) fn low_byte(form: Form) -> u8
    ensures { result ≡ building.number form % 256 }
{
    (number(form) % 256) as u8
}

/// The low 16 bits of a number.
pub(crate) fn low_word(form: Form) -> u16
    ensures { result ≡ building.number form % 65536 }
{
    (number(form) % 65536) as u16
}

/// The displacement of DBcc.
pub(crate) fn by_word(at: u32, form: Form) -> u16
    ensures { result ≡ building.by_word at form }
{
    let by = u64::from(number(form)) + 0x2_0000_0000 - u64::from(at) - 2;
    (by % 65536) as u16
}
