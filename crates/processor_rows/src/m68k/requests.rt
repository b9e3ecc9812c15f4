use md_word::Request68;
use std::alloc::AllocError;

/// The name of an access, its address or level, and what it reads or writes.
fn parts_of(request: Request68, answer: u16) -> (&'static str, u32, u16) {
    match request {
        Request68::Read8(at) => ("r", at, answer),
        Request68::Read16(at) => ("R", at, answer),
        Request68::Write8(at, value) => ("w", at, u16::from(value)),
        Request68::Write16(at, value) => ("W", at, value),
        Request68::Ack(level) => ("ACK", u32::from(level), 0),
        Request68::Word(value) => ("WORD", 0, value),
    }
}

/// Appends an access and its answer: `R:` and `W:` of words, `r:` and `w:` of bytes, `ACK=`.
pub fn put_access(text: &mut String, request: Request68, answer: u16) -> Result<(), AllocError> {
    let (kind, at, value) = parts_of(request, answer);
    match kind {
        "ACK" => write!(text, " ACK={at}"),
        "r" | "w" => write!(text, " {kind}:{at:06X}={value:02X}"),
        _ => write!(text, " {kind}:{at:06X}={value:04X}"),
    }
}
