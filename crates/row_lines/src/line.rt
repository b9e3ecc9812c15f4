/// What a line of a data file says.
pub enum Line<'a> {
    /// Nothing: a blank line, or a remark.
    Nothing,
    /// The head of a row, with its name.
    Row(&'a str),
    /// A step of a row that asks nothing.
    Step(&'a str),
    /// A question, and the answer that is wanted.
    Question(&'a str, &'a str),
}

/// A line without its remark, which begins after two spaces with `# `.
fn without_remark(text: &str) -> &str {
    match text.split_once("  # ") {
        Some((said, _)) => said.trim_end(),
        None => text,
    }
}

/// What a line says. `row NAME` is the head of a row, ` -> ` parts a question from the answer that is wanted, and
/// `#` at the beginning, or after two spaces and before one, begins a remark.
pub fn line_of(text: &str) -> Line<'_> {
    if text.is_empty() || text.starts_with('#') {
        return Line::Nothing;
    }
    if let Some(name) = text.strip_prefix("row ") {
        return Line::Row(name);
    }
    let said = without_remark(text);
    match said.split_once(" -> ") {
        Some((asked, wanted)) => Line::Question(asked, wanted),
        None => Line::Step(said),
    }
}

/// Whether an answer is the one that is wanted, which may end in `..` for any rest, or in `..` and a decimal number
/// for a rest of so many bytes.
pub fn is_wanted(answer: &str, wanted: &str) -> bool {
    let Some((front, count)) = wanted.split_once("..") else {
        return answer == wanted;
    };
    let rest = answer.len().saturating_sub(front.len());
    let is_counted = match count.parse::<usize>() {
        Ok(count) => count == rest,
        Err(_) => count.is_empty(),
    };
    answer.starts_with(front) && is_counted
}
