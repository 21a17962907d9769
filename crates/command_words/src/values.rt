// What single words and the values of options write.
ghost use Rattle.std.specs.Prelude.{◌≡◌, ◌≤◌, IfSome, option_map};
ghost use Rattle.command_words.specs.Words.{file_name, seed_of, workers_of, trace_of};

use itoa::Buffer;
use tlm_model::Trace;

// A file's name: not empty, and it doesn't begin with `-`.
pub fn file_name(word: &str) -> Option<&str>
    ensures { option_map (λ s. s.now) result ≡ file_name word.now }
{
    match word.as_bytes() {
        [] | [b'-', ..] => None,
        _ => Some(word),
    }
}

// A number below 2^64 in decimal, without sign or leading zeros: as it is printed.
pub fn seed_of(word: &str) -> Option<u64>
    ensures { result ≡ seed_of word.now }
{
    let Ok(seed) = word.parse::<u64>() else {
        return None;
    };
    let mut printed = Buffer::new();
    if printed.format(seed) == word {
        Some(seed)
    } else {
        None
    }
}

// A number from 1 to 16 in decimal, without sign or leading zeros.
pub fn workers_of(value: &[u8]) -> Option<u32>
    ensures value { result ≡ workers_of value.now }
    ensures range { IfSome result (λ n. (1 ≤ n) × (n ≤ 16)) }
{
    match value {
        [digit @ b'1'..=b'9'] => Some(u32::from(*digit - b'0')),
        [b'1', digit @ b'0'..=b'6'] => Some(u32::from(*digit - b'0') + 10),
        _ => None,
    }
}

pub fn trace_of(value: &[u8]) -> Option<Trace>
    ensures { result ≡ trace_of value.now }
{
    match value {
        b"all" => Some(Trace::All),
        b"accesses" => Some(Trace::Accesses),
        b"none" => Some(Trace::None),
        _ => None,
    }
}
