ghost use Rattle.std.specs.Prelude.{◌≡◌, ◌++◌, OnOk, replicate};
ghost use Rattle.std.specs.List.{flat_map};
ghost use Rattle.rand_core.specs.Steps.{first_words};
ghost use Rattle.rand_pcg.specs.Pcg.{pcg32};
ghost use Rattle.md_demo.specs.Demo as meaning;

use md_word::NoMemory;
use rand_core::utils::NextWord;
use rand_pcg::Lcg64Xsh32;

/// Appends zeros up to a length.
pub(crate) fn fill_to(bytes: &mut Vec<u8>, size: usize) -> Result<(), NoMemory>
    ensures { OnOk result (bytes.new.items ≡ meaning.filled_to size bytes.old.items) }
{
    'zeros: while bytes.len() < size {
        bytes.push(0)?;
    }
    Ok(())
}

/// Appends words, each high byte first.
pub(crate) fn push_words(bytes: &mut Vec<u8>, words: &[u16]) -> Result<(), NoMemory>
    ensures { OnOk result (bytes.new.items ≡ bytes.old.items ++ flat_map meaning.word words.now) }
{
    for word in words {
        bytes.extend_from_slice(&word.to_be_bytes())?;
    }
    Ok(())
}

/// Appends the same long so many times.
pub(crate) fn push_longs(bytes: &mut Vec<u8>, long: u32, count: u32) -> Result<(), NoMemory>
    ensures { OnOk result (bytes.new.items ≡ bytes.old.items ++ flat_map meaning.long (replicate count long)) }
{
    let mut left = count;
    'longs: while left > 0 {
        bytes.extend_from_slice(&long.to_be_bytes())?;
        left -= 1;
    }
    Ok(())
}

/// Appends the next words of a generator, so many.
pub(crate) fn push_stream(
    bytes: &mut Vec<u8>,
    generator: Lcg64Xsh32,
    count: u32,
) -> Result<(), NoMemory>
    ensures { OnOk result (bytes.new.items ≡ bytes.old.items ++ flat_map meaning.long (first_words pcg32 count generator)) }
{
    let mut generator = generator;
    let mut left = count;
    'words: while left > 0 {
        bytes.extend_from_slice(&generator.next_word().to_be_bytes())?;
        left -= 1;
    }
    Ok(())
}
