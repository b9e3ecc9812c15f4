ghost use Rattle.std.specs.Prelude.{◌≡◌, map};
ghost use Rattle.asm_m68k.specs.Building as meant;
ghost use Rattle.asm_m68k.specs.Entered.{entered};

use crate::mnemonic::Mnemonic;
use m68k_decode::Condition;
use md_word::Task;

/// A mnemonic as it is written, and its meaning.
#[derive(Clone, Copy)]
pub(crate) struct Named(&'static [u8], Mnemonic);

/// The meaning of a text among these mnemonics, else `Unknown`.
#[tactic(auto, unfolding(crate::specs::Building::mnemonic_in))]
fn mnemonic_in(names: &[Named], text: &[u8]) -> Mnemonic
    ensures { result ≡ meant.mnemonic_in (map entered names.now) text.now }
{
    let mut rest = names;
    while let [Named(name, mnemonic), after @ ..] = rest {
        if *name == text {
            return *mnemonic;
        }
        rest = after;
    }
    Mnemonic::Unknown
}

/// The mnemonics of the 68000. M68000 Programmer's Reference Manual, section 4, "Integer Instructions".
static NAMES: [Named; 118] = [
    Named(b"abcd", Mnemonic::Decimal(Task::Abcd)),
    Named(b"add", Mnemonic::Sum(Task::Add)),
    Named(b"adda", Mnemonic::ToAddress(Task::Add)),
    Named(b"addi", Mnemonic::Immediate(Task::Add)),
    Named(b"addq", Mnemonic::Quick(Task::Add)),
    Named(b"addx", Mnemonic::Extended(Task::Addx)),
    Named(b"and", Mnemonic::Sum(Task::And)),
    Named(b"andi", Mnemonic::Immediate(Task::And)),
    Named(b"asl", Mnemonic::Shift(Task::Asl)),
    Named(b"asr", Mnemonic::Shift(Task::Asr)),
    Named(b"bcc", Mnemonic::Bcc(Condition::CarryClear)),
    Named(b"bchg", Mnemonic::Bit(Task::Bchg)),
    Named(b"bclr", Mnemonic::Bit(Task::Bclr)),
    Named(b"bcs", Mnemonic::Bcc(Condition::CarrySet)),
    Named(b"beq", Mnemonic::Bcc(Condition::Equal)),
    Named(b"bf", Mnemonic::Bcc(Condition::False)),
    Named(b"bge", Mnemonic::Bcc(Condition::GreaterOrEqual)),
    Named(b"bgt", Mnemonic::Bcc(Condition::GreaterThan)),
    Named(b"bhi", Mnemonic::Bcc(Condition::High)),
    Named(b"ble", Mnemonic::Bcc(Condition::LessOrEqual)),
    Named(b"bls", Mnemonic::Bcc(Condition::LowOrSame)),
    Named(b"blt", Mnemonic::Bcc(Condition::LessThan)),
    Named(b"bmi", Mnemonic::Bcc(Condition::Minus)),
    Named(b"bne", Mnemonic::Bcc(Condition::NotEqual)),
    Named(b"bpl", Mnemonic::Bcc(Condition::Plus)),
    Named(b"bra", Mnemonic::Bra),
    Named(b"bset", Mnemonic::Bit(Task::Bset)),
    Named(b"bsr", Mnemonic::Bsr),
    Named(b"bt", Mnemonic::Bcc(Condition::True)),
    Named(b"btst", Mnemonic::Bit(Task::Btst)),
    Named(b"bvc", Mnemonic::Bcc(Condition::OverflowClear)),
    Named(b"bvs", Mnemonic::Bcc(Condition::OverflowSet)),
    Named(b"chk", Mnemonic::Chk),
    Named(b"clr", Mnemonic::Unary(Task::Clr)),
    Named(b"cmp", Mnemonic::Cmp),
    Named(b"cmpa", Mnemonic::Cmpa),
    Named(b"cmpi", Mnemonic::CompareImmediate),
    Named(b"cmpm", Mnemonic::Cmpm),
    Named(b"dbcc", Mnemonic::Dbcc(Condition::CarryClear)),
    Named(b"dbcs", Mnemonic::Dbcc(Condition::CarrySet)),
    Named(b"dbeq", Mnemonic::Dbcc(Condition::Equal)),
    Named(b"dbf", Mnemonic::Dbcc(Condition::False)),
    Named(b"dbge", Mnemonic::Dbcc(Condition::GreaterOrEqual)),
    Named(b"dbgt", Mnemonic::Dbcc(Condition::GreaterThan)),
    Named(b"dbhi", Mnemonic::Dbcc(Condition::High)),
    Named(b"dble", Mnemonic::Dbcc(Condition::LessOrEqual)),
    Named(b"dbls", Mnemonic::Dbcc(Condition::LowOrSame)),
    Named(b"dblt", Mnemonic::Dbcc(Condition::LessThan)),
    Named(b"dbmi", Mnemonic::Dbcc(Condition::Minus)),
    Named(b"dbne", Mnemonic::Dbcc(Condition::NotEqual)),
    Named(b"dbpl", Mnemonic::Dbcc(Condition::Plus)),
    Named(b"dbt", Mnemonic::Dbcc(Condition::True)),
    Named(b"dbvc", Mnemonic::Dbcc(Condition::OverflowClear)),
    Named(b"dbvs", Mnemonic::Dbcc(Condition::OverflowSet)),
    Named(b"divs", Mnemonic::Divs),
    Named(b"divu", Mnemonic::Divu),
    Named(b"eor", Mnemonic::Eor),
    Named(b"eori", Mnemonic::Immediate(Task::Eor)),
    Named(b"exg", Mnemonic::Exg),
    Named(b"ext", Mnemonic::Ext),
    Named(b"jmp", Mnemonic::Jmp),
    Named(b"jsr", Mnemonic::Jsr),
    Named(b"lea", Mnemonic::Lea),
    Named(b"link", Mnemonic::Link),
    Named(b"lsl", Mnemonic::Shift(Task::Lsl)),
    Named(b"lsr", Mnemonic::Shift(Task::Lsr)),
    Named(b"move", Mnemonic::Move),
    Named(b"movea", Mnemonic::Movea),
    Named(b"movem", Mnemonic::Movem),
    Named(b"movep", Mnemonic::Movep),
    Named(b"moveq", Mnemonic::Moveq),
    Named(b"muls", Mnemonic::Muls),
    Named(b"mulu", Mnemonic::Mulu),
    Named(b"nbcd", Mnemonic::Nbcd),
    Named(b"neg", Mnemonic::Unary(Task::Neg)),
    Named(b"negx", Mnemonic::Unary(Task::Negx)),
    Named(b"nop", Mnemonic::Nop),
    Named(b"not", Mnemonic::Unary(Task::Not)),
    Named(b"or", Mnemonic::Sum(Task::Or)),
    Named(b"ori", Mnemonic::Immediate(Task::Or)),
    Named(b"pea", Mnemonic::Pea),
    Named(b"reset", Mnemonic::Reset),
    Named(b"rol", Mnemonic::Shift(Task::Rol)),
    Named(b"ror", Mnemonic::Shift(Task::Ror)),
    Named(b"roxl", Mnemonic::Shift(Task::Roxl)),
    Named(b"roxr", Mnemonic::Shift(Task::Roxr)),
    Named(b"rte", Mnemonic::Rte),
    Named(b"rtr", Mnemonic::Rtr),
    Named(b"rts", Mnemonic::Rts),
    Named(b"sbcd", Mnemonic::Decimal(Task::Sbcd)),
    Named(b"scc", Mnemonic::Scc(Condition::CarryClear)),
    Named(b"scs", Mnemonic::Scc(Condition::CarrySet)),
    Named(b"seq", Mnemonic::Scc(Condition::Equal)),
    Named(b"sf", Mnemonic::Scc(Condition::False)),
    Named(b"sge", Mnemonic::Scc(Condition::GreaterOrEqual)),
    Named(b"sgt", Mnemonic::Scc(Condition::GreaterThan)),
    Named(b"shi", Mnemonic::Scc(Condition::High)),
    Named(b"sle", Mnemonic::Scc(Condition::LessOrEqual)),
    Named(b"sls", Mnemonic::Scc(Condition::LowOrSame)),
    Named(b"slt", Mnemonic::Scc(Condition::LessThan)),
    Named(b"smi", Mnemonic::Scc(Condition::Minus)),
    Named(b"sne", Mnemonic::Scc(Condition::NotEqual)),
    Named(b"spl", Mnemonic::Scc(Condition::Plus)),
    Named(b"st", Mnemonic::Scc(Condition::True)),
    Named(b"stop", Mnemonic::Stop),
    Named(b"sub", Mnemonic::Sum(Task::Sub)),
    Named(b"suba", Mnemonic::ToAddress(Task::Sub)),
    Named(b"subi", Mnemonic::Immediate(Task::Sub)),
    Named(b"subq", Mnemonic::Quick(Task::Sub)),
    Named(b"subx", Mnemonic::Extended(Task::Subx)),
    Named(b"svc", Mnemonic::Scc(Condition::OverflowClear)),
    Named(b"svs", Mnemonic::Scc(Condition::OverflowSet)),
    Named(b"swap", Mnemonic::Swap),
    Named(b"tas", Mnemonic::Tas),
    Named(b"trap", Mnemonic::Trap),
    Named(b"trapv", Mnemonic::Trapv),
    Named(b"tst", Mnemonic::Tst),
    Named(b"unlk", Mnemonic::Unlk),
];

/// The meaning of a text, else `Unknown`.
#[tactic(auto, unfolding(crate::specs::Building::mnemonic_of))]
pub(crate) fn mnemonic_of(text: &[u8]) -> Mnemonic
    ensures { result ≡ meant.mnemonic_of text.now }
{
    mnemonic_in(&NAMES, text)
}
