use crate::row_error::RowError;

/// The first word of a text, and what follows it, which is empty where nothing does.
pub fn first_word(text: &str) -> (&str, &str) {
    text.split_once(' ').unwrap_or((text, ""))
}

/// What stands before the first mark of a text, and what stands after it; `NoSuchLine` where the text has none.
pub fn parted(text: &str, mark: char) -> Result<(&str, &str), RowError> {
    match text.split_once(mark) {
        Some(parts) => Ok(parts),
        None => Err(RowError::NoSuchLine),
    }
}
