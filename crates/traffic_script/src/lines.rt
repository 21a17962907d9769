// The lines of a text.
ghost use Rattle.std.specs.Prelude.{◌≡◌, ◌<◌, [], ◌∷◌, length, position, ◌==◌, IfSome, MatchOption};
ghost use Rattle.std.specs.Str.Lines.{lines, strip_carriage_return};

use memchr::memchr;

/// The place of the first of these bytes.
pub fn find(text: &[u8], at: u8) -> Option<usize>
    ensures { result ≡ position (λ b. b == at) text.now }
{
    memchr(at, text)
}

fn without_return(line: &[u8]) -> &[u8]
    ensures { result.now ≡ strip_carriage_return line.now }
{
    match line {
        [front @ .., b'\r'] => front,
        _ => line,
    }
}

/// The first line, and what stands behind it.
pub fn first_line(text: &[u8]) -> Option<(&[u8], &[u8])>
    ensures lines { MatchOption result (lines text.now ≡ []) (λ cut. lines text.now ≡ cut.0.now ∷ lines cut.1.now) }
    ensures shorter { IfSome result (λ cut. length cut.1.now < length text.now) }
{
    if text.is_empty() {
        return None;
    }
    match find(text, b'\n') {
        Some(place) => Some((without_return(&text[..place]), &text[place + 1..])),
        None => Some((text, &[])),
    }
}

pub fn count_lines(text: &[u8]) -> usize
    ensures { result ≡ length (lines text.now) }
{
    let mut count = 0;
    let mut rest = text;
    while let Some((_, after)) = first_line(rest) {
        count += 1;
        rest = after;
    }
    count
}
