ghost use Rattle.std.specs.Prelude.{◌≡◌, ◌≤◌, IfSome};
ghost use Rattle.std.specs.Option.{option_copied};
ghost use Rattle.md_args.specs.Commands as meaning;

use text_lines::read_decimal;

/// A number of workers, 1 to 5; 1 where none is given.
pub(crate) fn read_workers(word: Option<&str>) -> Option<u32>
    ensures number { result ≡ meaning.workers_of (option_copied word.entry) }
    ensures some { IfSome result (λ workers. 1 ≤ workers) }
    ensures few { IfSome result (λ workers. workers ≤ 5) }
{
    match word {
        Some(word) => match read_decimal(word) {
            Some(workers) if workers >= 1 && workers <= 5 => Some(workers as u32),
            _ => None,
        },
        None => Some(1),
    }
}
