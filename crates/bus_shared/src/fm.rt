ghost use Rattle.std.specs.Prelude.{◌≡◌};
ghost use Rattle.bus_shared.specs.Fm as fm;

/// Whether the FM chip answers at an address of the Z80.
pub(crate) fn is_fm(at: u16) -> bool
    ensures { result ≡ fm.is_fm at }
{
    0x4000 <= at && at <= 0x5fff
}
