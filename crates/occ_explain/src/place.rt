//! Places in a text: lines and columns from 1 on.
ghost use Rattle.std.specs.Prelude.{◌≡◌, ◌∷◌, ◌<◌, ◌≤◌, ◌==◌, length, position, ℕ};
ghost use Rattle.std.specs.Str.Lines.{lines, strip_carriage_return};
ghost use Rattle.occ_explain.specs.Places.{IsPlace, line_numbered};

/// A place: its line's number, the column, and the line.
#[derive(Clone, Copy)]
pub(crate) struct Place<'a> {
    pub(crate) line: u32,
    pub(crate) column: usize,
    pub(crate) shown: &'a [u8],
}

/// The line without the carriage return at its end, if it has one.
fn without_return(line: &[u8]) -> &[u8]
    ensures { result.now ≡ strip_carriage_return line.now }
{
    match line {
        [front @ .., b'\r'] => front,
        _ => line,
    }
}

/// The place of the first line feed.
fn line_feed(text: &[u8]) -> Option<usize>
    ensures { result ≡ position (λ byte. byte == 10) text.now }
{
    text.iter().position(|byte| *byte == b'\n')
}

/// The first physical line, and the text after it.
pub(crate) fn first_line(text: &[u8]) -> (&[u8], &[u8])
    requires { 0 < length text.now }
    ensures value { lines text.now ≡ result.0.now ∷ lines result.1.now }
    ensures within { length result.0.now ≤ length text.now }
    ensures shorter { length result.1.now < length text.now }
{
    match line_feed(text) {
        Some(end) => (without_return(&text[..end]), &text[end + 1..]),
        None => (text, &text[text.len()..]),
    }
}

/// The place in this line behind so many bytes; of a line that the text has not the last one, and of bytes that the line
/// has not its end.
pub(crate) fn place_in(text: &[u8], line: u32, before: usize) -> Place<'_>
    ensures within { IsPlace text.now result.line result.column }
    ensures shown { result.shown.now ≡ line_numbered text.now result.line }
    ensures at_most { (n : ℕ) → 1 ≤ n → line ≤ n → result.line ≤ n }
    ensures reached { (n : ℕ) → n ≤ line → n ≤ length (lines text.now) → n ≤ result.line }
{
    if text.is_empty() {
        return Place {
            line: 1,
            column: 1,
            shown: text,
        };
    }
    let mut number: u32 = 1;
    let (mut shown, mut rest) = first_line(text);
    while number < line && !rest.is_empty() {
        (shown, rest) = first_line(rest);
        number += 1;
    }
    Place {
        line: number,
        column: before.min(shown.len()) + 1,
        shown,
    }
}
