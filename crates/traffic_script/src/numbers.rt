// The numbers and bytes that words write.
ghost use Rattle.std.specs.Prelude.{◌≡◌, ◌+◌, ◌*◌, ◌^◌, ◌<◌, ◌≤◌, true, false, MatchOption, IfSome, Ok};
ghost use Rattle.std.specs.Option.{SomeIff};
ghost use Rattle.std.specs.Char.{is_digit, digit_value};
ghost use Rattle.std.specs.List.{list_all};
ghost use Rattle.traffic_script.specs.Reading.{GivesCode};
ghost use Rattle.traffic_script.specs.Numbers.{number_in, read_number, within, length_of, span_of, times_of, addend_of, byte_of, bytes_of, read_hex, data_of, enables_of};
ghost use Rattle.tlm_types.specs.Enables.{is_enable};

use crate::fault::{LineFault, ScriptCode};
use std::alloc::Global;
use tlm_types::Bytes;

const MOST_BYTES: usize = 4_096;

const MOST_TIMES: u64 = 100_000;

fn next_total(base: u32, total: u64, digit: u32) -> Option<u64>
    ensures { SomeIff result (total * base + digit < 2 ^ 64) (total * base + digit) }
{
    total.checked_mul(base as u64)?.checked_add(digit as u64)
}

// The number below 2^64 that some digits write.
fn number_in(base: u32, digits: &[u8]) -> Result<u64, ScriptCode>
    requires least { 2 ≤ base }
    requires most { base ≤ 36 }
    ensures { result ≡ number_in base digits.now }
{
    if digits.is_empty() {
        return Err(ScriptCode::BadNumber);
    }
    let mut total = 0;
    for byte in digits {
        let Some(digit) = (*byte as char).to_digit(base) else {
            return Err(ScriptCode::BadNumber);
        };
        let Some(next) = next_total(base, total, digit) else {
            return Err(ScriptCode::BadNumber);
        };
        total = next;
    }
    Ok(total)
}

pub fn number(word: &[u8]) -> Result<u64, ScriptCode>
    ensures { result ≡ read_number word.now }
{
    if word.starts_with(b"0x") {
        return number_in(16, &word[2..]);
    }
    number_in(10, word)
}

fn within(code: ScriptCode, least: u64, most: u64, number: u64) -> Result<u64, ScriptCode>
    ensures { result ≡ within code least most number }
{
    if number < least || most < number {
        return Err(code);
    }
    Ok(number)
}

pub fn length(word: &[u8]) -> Result<u64, ScriptCode>
    ensures { result ≡ length_of word.now }
{
    let length = number(word)?;
    within(ScriptCode::BadLength, 1, MOST_BYTES as u64, length)
}

pub fn span(word: &[u8]) -> Result<u64, ScriptCode>
    ensures { result ≡ span_of word.now }
{
    let span = number(word)?;
    within(ScriptCode::BadLength, 1, u64::MAX, span)
}

pub fn times(word: &[u8]) -> Result<u32, ScriptCode>
    ensures { result ≡ times_of word.now }
{
    let times = within(ScriptCode::BadNumber, 1, MOST_TIMES, number(word)?)?;
    Ok(times as u32)
}

pub fn addend(word: &[u8]) -> Result<u32, ScriptCode>
    ensures { result ≡ addend_of word.now }
{
    let addend = within(ScriptCode::BadNumber, 0, u32::MAX as u64, number(word)?)?;
    Ok(addend as u32)
}

// It looks at every byte, since a loop that may stop early takes them one at a time.
fn all_hex(digits: &[u8]) -> bool
    ensures { result ≡ list_all (λ b. is_digit b 16) digits.now }
{
    let mut all = true;
    for byte in digits {
        all &= byte.is_ascii_hexdigit();
    }
    all
}

// The value of a digit, without a test: letters, from 64 on, end in 1 to 6.
fn hex_value(byte: u8) -> u8
    requires { is_digit byte 16 ≡ true }
    ensures { result ≡ digit_value byte }
{
    byte % 16 + 9 * (byte / 64)
}

fn byte(high: u8, low: u8) -> u8
    requires high { is_digit high 16 ≡ true }
    requires low { is_digit low 16 ≡ true }
    ensures { byte_of high low ≡ Ok result }
{
    16 * hex_value(high) + hex_value(low)
}

// The digits are read straight into a vector that has room for all of them.
fn bytes(alloc: Global, digits: &[u8]) -> Result<Bytes, LineFault>
    ensures { GivesCode result (bytes_of digits.now) }
{
    if !all_hex(digits) {
        return Err(LineFault::Refused(ScriptCode::BadHex));
    }
    let mut bytes = Vec::with_capacity(alloc, digits.len() / 2)?;
    let mut rest = digits;
    while let [high, low, more @ ..] = rest {
        bytes.push_reserved(byte(*high, *low));
        rest = more;
    }
    if !rest.is_empty() {
        return Err(LineFault::Refused(ScriptCode::BadHex));
    }
    Ok(Bytes::from_vec(bytes))
}

fn hex(alloc: Global, word: &[u8]) -> Result<Bytes, LineFault>
    ensures { GivesCode result (read_hex word.now) }
{
    if word.is_empty() {
        return Err(LineFault::Refused(ScriptCode::BadHex));
    }
    bytes(alloc, word)
}

// It looks at every byte, as `all_hex` does.
fn only_enables(bytes: &[u8]) -> bool
    ensures { result ≡ list_all is_enable bytes.now }
{
    let mut only = true;
    for byte in bytes {
        only &= *byte == 0 || *byte == 255;
    }
    only
}

// 1 to 4,096 bytes.
pub fn data(alloc: Global, word: &[u8]) -> Result<Bytes, LineFault>
    ensures { GivesCode result (data_of word.now) }
{
    let bytes = hex(alloc, word)?;
    if bytes.as_slice().len() > MOST_BYTES {
        return Err(LineFault::Refused(ScriptCode::BadLength));
    }
    Ok(bytes)
}

// 1 to 4,096 byte enables.
pub fn enables(alloc: Global, word: &[u8]) -> Result<Bytes, LineFault>
    ensures { GivesCode result (enables_of word.now) }
{
    let bytes = hex(alloc, word)?;
    if !only_enables(bytes.as_slice()) {
        return Err(LineFault::Refused(ScriptCode::BadHex));
    }
    if bytes.as_slice().len() > MOST_BYTES {
        return Err(LineFault::Refused(ScriptCode::BadLength));
    }
    Ok(bytes)
}
