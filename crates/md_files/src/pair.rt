ghost use Rattle.std.specs.Prelude.{◌≡◌};
ghost use Rattle.md_files.specs.Pair.{mixed};

/// The pair of samples, left and right, of a moment: on each side the half of the FM sum, rounded
/// down, plus the PSG's level, brought into the range of 16 bits. Source: this project's profile.
pub fn mix(fm: (i32, i32), psg: i32) -> (i16, i16)
    ensures left { result.0 ≡ mixed fm.0 psg }
    ensures right { result.1 ≡ mixed fm.1 psg }
{
    (side(fm.0, psg), side(fm.1, psg))
}

fn side(fm: i32, psg: i32) -> i16
    ensures { result ≡ mixed fm psg }
{
    let sum = i64::from(fm.div_euclid(2)) + i64::from(psg);
    sum.clamp(-32_768, 32_767) as i16
}
