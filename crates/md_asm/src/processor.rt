ghost use Rattle.std.specs.Prelude.{◌≡◌, ◌<◌, true};
ghost use Rattle.md_asm.specs.Places as places;

/// The processor whose instructions lines have.
#[derive(Clone, Copy, PartialEq, Eq, Drop)]
pub(crate) enum Processor {
    /// The 68000.
    Main,
    /// The Z80, which has the first address at the second place: from there both rise, the address modulo 10000h.
    Sub(u32, u32),
}

pub(crate) fn is_sub(processor: Processor) -> bool
    ensures { result ≡ places.is_sub processor }
{
    match processor {
        Processor::Main => false,
        Processor::Sub(_, _) => true,
    }
}

/// The address at a place, which for the Z80 is below 10000h.
pub(crate) fn address(processor: Processor, place: u32) -> u32
    ensures value { result ≡ places.address processor place }
    ensures low { places.is_sub processor ≡ true → result < 65536 }
{
    match processor {
        Processor::Main => place,
        Processor::Sub(at, from) => {
            ((u64::from(at) + u64::from(place) + 4_294_967_296 - u64::from(from)) % 65_536) as u32
        }
    }
}
