// The words of a line.
ghost use Rattle.std.specs.Prelude.{◌≡◌, ◌≢◌, ◌<◌, false, [], ◌∷◌, length, position, slice_index, ◌==◌, IfSome, MatchOption, MatchResult, Ok, Err, ◌≤◌};
ghost use Rattle.std.specs.List.{list_all, before_first};
ghost use Rattle.traffic_script.specs.Words.{is_printable, is_blank, words_of, text_of};

use crate::fault::ScriptCode;
use crate::lines::find;
use memchr::memchr2;

fn is_blank(byte: u8) -> bool
    ensures { result ≡ is_blank byte }
{
    byte == b' ' || byte == b'\t'
}

fn is_printable(byte: u8) -> bool
    ensures { result ≡ is_printable byte }
{
    byte == b'\t' || (b' ' <= byte && byte <= b'~')
}

// It looks at every byte, since a loop that may stop early takes them one at a time.
fn all_plain(line: &[u8]) -> bool
    ensures { result ≡ list_all is_printable line.now }
{
    let mut plain = true;
    for byte in line {
        plain &= is_printable(*byte);
    }
    plain
}

fn without_comment(line: &[u8]) -> &[u8]
    ensures { result.now ≡ before_first (λ b. b == 35) line.now }
{
    match find(line, b'#') {
        Some(place) => &line[..place],
        None => line,
    }
}

/// What stands in a line before its comment.
pub fn text_of(line: &[u8]) -> Result<&[u8], ScriptCode>
    ensures { MatchResult result (λ text. text_of line.now ≡ Ok text.now) (λ code. text_of line.now ≡ Err code) }
{
    if !all_plain(line) {
        return Err(ScriptCode::BadByte);
    }
    Ok(without_comment(line))
}

fn find_blank(text: &[u8]) -> Option<usize>
    ensures { result ≡ position is_blank text.now }
{
    memchr2(b' ', b'\t', text)
}

fn without_blanks(text: &[u8]) -> &[u8]
    ensures same { words_of result.now ≡ words_of text.now }
    ensures first { 0 < length result.now → is_blank (slice_index result.now 0) ≡ false }
    ensures shorter { length result.now ≤ length text.now }
{
    let mut rest = text;
    while let [first, more @ ..] = rest {
        if !is_blank(*first) {
            return rest;
        }
        rest = more;
    }
    rest
}

/// The first word, and what stands behind it.
pub fn first_word(text: &[u8]) -> Option<(&[u8], &[u8])>
    ensures words { MatchOption result (words_of text.now ≡ []) (λ cut. words_of text.now ≡ cut.0.now ∷ words_of cut.1.now) }
    ensures shorter { IfSome result (λ cut. length cut.1.now < length text.now) }
{
    let text = without_blanks(text);
    if text.is_empty() {
        return None;
    }
    match find_blank(text) {
        Some(end) => Some((&text[..end], &text[end + 1..])),
        None => Some((text, &[])),
    }
}

/// The word of a text that has just one.
pub fn one_word(text: &[u8]) -> Option<&[u8]>
    ensures { MatchOption result (length (words_of text.now) ≢ 1) (λ word. words_of text.now ≡ word.now ∷ []) }
{
    let (first, rest) = first_word(text)?;
    match first_word(rest) {
        None => Some(first),
        Some(_) => None,
    }
}

/// The words of a text that has just two.
pub fn two_words(text: &[u8]) -> Option<(&[u8], &[u8])>
    ensures { MatchOption result (length (words_of text.now) ≢ 2) (λ words. words_of text.now ≡ words.0.now ∷ words.1.now ∷ []) }
{
    let (first, rest) = first_word(text)?;
    let second = one_word(rest)?;
    Some((first, second))
}

/// The words of a text that has just three.
pub fn three_words(text: &[u8]) -> Option<(&[u8], &[u8], &[u8])>
    ensures { MatchOption result (length (words_of text.now) ≢ 3) (λ words. words_of text.now ≡ words.0.now ∷ words.1.now ∷ words.2.now ∷ []) }
{
    let (first, rest) = first_word(text)?;
    let (second, third) = two_words(rest)?;
    Some((first, second, third))
}

/// The first two words, and what stands behind them.
pub fn two_first_words(text: &[u8]) -> Option<(&[u8], &[u8], &[u8])>
    ensures { MatchOption result (length (words_of text.now) < 2) (λ words. words_of text.now ≡ words.0.now ∷ words.1.now ∷ words_of words.2.now) }
{
    let (first, rest) = first_word(text)?;
    let (second, more) = first_word(rest)?;
    Some((first, second, more))
}
