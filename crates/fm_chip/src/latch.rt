// The latches of the high halves of frequencies: of channels 1 to 6, then of the three that channel
// 3's operators have of their own. Source: Yamaha, YM2608 Application Manual, F-number and block.

ghost use Rattle.std.specs.Prelude.{◌≡◌, ◌<◌};
ghost use Rattle.std.specs.Option.{IfSome};
ghost use Rattle.fm_chip.specs.Latches as meaning;

/// The latch, 0 to 2, that a register takes when it is written: A0 to A2 do, and for port 0 A8 to AA.
/// None for the others.
#[tactic(auto, unfolding(crate::specs::Latches::taken_latch))]
pub fn taken_latch(port: u8, register: u8) -> Option<usize>
    requires { port < 2 }
    ensures value { result ≡ meaning.taken_latch port register }
    ensures below { IfSome result (λ n. n < 9) }
    ensures place { IfSome result (λ n. register < 0xab) }
{
    match (port, register) {
        (_, 0xa0..0xa3) => Some(3 * usize::from(port) + usize::from(register - 0xa0)),
        (0, 0xa8..0xab) => Some(6 + usize::from(register - 0xa8)),
        _ => None,
    }
}

/// The latch that a register is: A4 to A6 are, and for port 0 AC to AE. None for the others.
#[tactic(auto, unfolding(crate::specs::Latches::own_latch))]
pub fn own_latch(port: u8, register: u8) -> Option<usize>
    requires { port < 2 }
    ensures value { result ≡ meaning.own_latch port register }
    ensures below { IfSome result (λ n. n < 9) }
{
    match (port, register) {
        (_, 0xa4..0xa7) => Some(3 * usize::from(port) + usize::from(register - 0xa4)),
        (0, 0xac..0xaf) => Some(6 + usize::from(register - 0xac)),
        _ => None,
    }
}
