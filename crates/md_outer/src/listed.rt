ghost use Rattle.std.specs.Prelude.{◌≡◌, option_copied};
ghost use Rattle.md_outer.specs.Listed.{listed_files};

/// The bytes of the first file of a name.
pub(crate) fn listed<'a>(files: &'a [(String, Vec<u8>)], name: &str) -> Option<&'a [u8]>
    ensures { option_copied result ≡ listed_files files.now name.now }
{
    match files.iter().find(|file| file.0.as_str() == name) {
        Some(file) => Some(&file.1),
        None => None,
    }
}
