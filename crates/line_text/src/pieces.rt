// Pieces of a line, written at a place of some bytes. Each call answers the place behind what it wrote.
// The place goes from one write to the next in a register, and digits are written where they stay.
ghost use Rattle.std.specs.Prelude.{◌≡◌, ℕ, ◌+◌, ◌*◌, ◌/◌, ◌%◌, ◌<◌, ◌≤◌, [], ◌∷◌, ◌++◌, false, codes, drop, length, slice_index, take};
ghost use Rattle.std.specs.Fmt.{decimal, digits, digit_glyph};
ghost use Rattle.report_model.specs.Report.{command_word, way_word};
ghost use Rattle.tlm_model.specs.Text.{address_word, hex_of};
ghost use Rattle.line_text.specs.Pieces.{Adds, asked_text, piece_text, seq_text, status_text, times_text, unmasked_text, width_text};

use std::simd::prelude::*;
use tlm_types::{Command, Facts, Ps, Response, Way};

// How many bytes a vector has.
const WIDTH: usize = 16;

/// How many bytes a piece takes at most.
pub const PIECE_MAX: usize = 128;

/// Words of a line that follow one another, with the spaces between them.
#[derive(Clone, Copy)]
pub enum LinePiece {
    Number(u64),
    Address(u64),
    // A position and a time, each with a space after it.
    Times { position: u64, time: Ps },
    // The number of a transaction, between a dot and a space.
    Seq(u64),
    // What an access asked for, from the space before it to its enables.
    Asked(Facts),
    // A width, with the space before its word and one behind it.
    Width(u64),
    // A status after a space, with the end of the line.
    Status(Response),
}

/// Writes some bytes.
#[inline(always)]
pub fn write_bytes(bytes: &mut [u8], start: usize, word: &[u8]) -> usize
    requires { start + length word.now ≤ length bytes.old }
    ensures { Adds bytes.old bytes.new start result word.now }
{
    let end = start + word.len();
    bytes[start..end].copy_from_slice(word);
    end
}

/// Writes a word of known length.
// It is a move or two: nothing asks whether the bytes and the word overlap, as for a slice.
pub fn write_word<const N: usize>(bytes: &mut [u8], start: usize, word: &[u8; N]) -> usize
    requires { start + N ≤ length bytes.old }
    ensures { Adds bytes.old bytes.new start result word.now }
{
    let word = *word;
    for k in 0..N {
        bytes[start + k] = word[k];
    }
    start + N
}

// The two digits of each number below 100.
static DECIMAL_PAIRS: [u8; 200] =
    *b"00010203040506070809101112131415161718192021222324252627282930313233343536373839404142434445464748495051525354555657585960616263646566676869707172737475767778798081828384858687888990919293949596979899";

// The digits of a number below 100.
pub fn decimal_pair(number: u64) -> [u8; 2]
    requires { number < 100 }
    ensures { result ≡ (48 + number / 10) ∷ (48 + number % 10) ∷ [] }
{
    let from = number as usize * 2;
    [DECIMAL_PAIRS[from], DECIMAL_PAIRS[from + 1]]
}

// A number of one or two digits.
#[inline(always)]
pub fn write_short_decimal(bytes: &mut [u8], start: usize, number: u64) -> usize
    requires { (number < 100) × (start + length (decimal number) ≤ length bytes.old) }
    ensures { Adds bytes.old bytes.new start result (decimal number) }
{
    if number < 10 {
        write_word(bytes, start, &[b'0' + number as u8])
    } else {
        write_word(bytes, start, &decimal_pair(number))
    }
}

// A number of up to four digits.
#[inline(always)]
fn write_few_decimal(bytes: &mut [u8], start: usize, number: u64) -> usize
    requires { (number < 10000) × (start + length (decimal number) ≤ length bytes.old) }
    ensures { Adds bytes.old bytes.new start result (decimal number) }
{
    if number < 100 {
        return write_short_decimal(bytes, start, number);
    }
    let place = write_short_decimal(bytes, start, number / 100);
    write_word(bytes, place, &decimal_pair(number % 100))
}

// A number of up to eight digits: the last four follow those in front of them.
#[inline(always)]
fn write_eight_decimal(bytes: &mut [u8], start: usize, number: u64) -> usize
    requires { (number < 100000000) × (start + length (decimal number) ≤ length bytes.old) }
    ensures { Adds bytes.old bytes.new start result (decimal number) }
{
    if number < 10_000 {
        return write_few_decimal(bytes, start, number);
    }
    let place = write_few_decimal(bytes, start, number / 10_000);
    let low = number % 10_000;
    let last = write_word(bytes, place, &decimal_pair(low / 100));
    write_word(bytes, last, &decimal_pair(low % 100))
}

// The last four digits follow those in front of them. Up to eight take no further call.
fn write_decimal(bytes: &mut [u8], start: usize, number: u64) -> usize
    requires { start + length (decimal number) ≤ length bytes.old }
    ensures { Adds bytes.old bytes.new start result (decimal number) }
{
    if number < 100_000_000 {
        return write_eight_decimal(bytes, start, number);
    }
    let place = write_decimal(bytes, start, number / 10_000);
    let low = number % 10_000;
    let last = write_word(bytes, place, &decimal_pair(low / 100));
    write_word(bytes, last, &decimal_pair(low % 100))
}

/// Writes a decimal number. Most lengths, widths, slots and gates have one digit or two, and that takes no call.
#[inline(always)]
pub fn write_number(bytes: &mut [u8], start: usize, number: u64) -> usize
    requires { start + 20 ≤ length bytes.old }
    ensures adds { Adds bytes.old bytes.new start result (decimal number) }
    ensures within { result ≤ start + 20 }
{
    if number < 10 {
        write_word(bytes, start, &[b'0' + number as u8])
    } else if number < 100 {
        write_word(bytes, start, &decimal_pair(number))
    } else {
        write_decimal(bytes, start, number)
    }
}

// A number and a space.
#[inline(always)]
fn write_spaced(bytes: &mut [u8], start: usize, number: u64) -> usize
    requires { start + 21 ≤ length bytes.old }
    ensures adds { Adds bytes.old bytes.new start result (decimal number ++ codes " ") }
    ensures within { result ≤ start + 21 }
{
    let end = write_number(bytes, start, number);
    write_word(bytes, end, b" ")
}

// A number that mostly has several digits, and a space. Up to eight digits take no call.
#[inline(always)]
pub fn write_count(bytes: &mut [u8], start: usize, number: u64) -> usize
    requires { start + 21 ≤ length bytes.old }
    ensures adds { Adds bytes.old bytes.new start result (decimal number ++ codes " ") }
    ensures within { result ≤ start + 21 }
{
    if number < 100_000_000 {
        let end = write_eight_decimal(bytes, start, number);
        write_word(bytes, end, b" ")
    } else {
        write_spaced(bytes, start, number)
    }
}

// The two digits of each byte.
static HEX_PAIRS: [u8; 512] =
    *b"000102030405060708090a0b0c0d0e0f101112131415161718191a1b1c1d1e1f202122232425262728292a2b2c2d2e2f303132333435363738393a3b3c3d3e3f404142434445464748494a4b4c4d4e4f505152535455565758595a5b5c5d5e5f606162636465666768696a6b6c6d6e6f707172737475767778797a7b7c7d7e7f808182838485868788898a8b8c8d8e8f909192939495969798999a9b9c9d9e9fa0a1a2a3a4a5a6a7a8a9aaabacadaeafb0b1b2b3b4b5b6b7b8b9babbbcbdbebfc0c1c2c3c4c5c6c7c8c9cacbcccdcecfd0d1d2d3d4d5d6d7d8d9dadbdcdddedfe0e1e2e3e4e5e6e7e8e9eaebecedeeeff0f1f2f3f4f5f6f7f8f9fafbfcfdfeff";

// The digits of a byte.
fn pair_of(byte: u8) -> [u8; 2]
    ensures { result ≡ digit_glyph false (byte / 16) ∷ digit_glyph false (byte % 16) ∷ [] }
{
    let from = byte as usize * 2;
    [HEX_PAIRS[from], HEX_PAIRS[from + 1]]
}

// Writes each byte as two digits, which are the first of these.
#[inline(always)]
fn write_few_pairs(bytes: &[u8], digits: &mut [u8])
    requires { 2 * length bytes.now ≤ length digits.old }
    ensures { take (2 * length bytes.now) digits.new ≡ hex_of bytes.now }
{
    for (k, byte) in bytes.iter().enumerate() {
        let [high, low] = pair_of(*byte);
        digits[2 * k] = high;
        digits[2 * k + 1] = low;
    }
}

// A digit below 16, as a lower-case hexadecimal one.
fn glyph(digit: u8) -> u8
    requires { digit < 16 }
    ensures { result ≡ digit_glyph false digit }
{
    if digit < 10 {
        b'0' + digit
    } else {
        b'a' - 10 + digit
    }
}

// The same, as many bytes at once as a vector has.
#[inline(always)]
fn write_many_pairs(bytes: &[u8], digits: &mut [u8])
    requires { 2 * length bytes.now ≤ length digits.old }
    ensures { take (2 * length bytes.now) digits.new ≡ hex_of bytes.now }
{
    let mut done = 0;
    while WIDTH <= bytes.len() - done {
        let end = done + WIDTH;
        write_vector(&bytes[done..end], &mut digits[2 * done..2 * end]);
        done = end;
    }
    write_few_pairs(&bytes[done..], &mut digits[2 * done..]);
}

// Writes the digits of 16 bytes.
#[inline(always)]
fn write_vector(bytes: &[u8], digits: &mut [u8])
    requires bytes { length bytes.now ≡ 16 }
    requires digits { length digits.old ≡ 32 }
    ensures { digits.new ≡ hex_of bytes.now }
{
    let (front, back) = digits_of(u8x16::from_slice(bytes));
    front.copy_to_slice(&mut digits[..WIDTH]);
    back.copy_to_slice(&mut digits[WIDTH..]);
}

// Writes the digits of 8 bytes, as many accesses have. They are the first half of a vector, whose digits are one.
#[inline(always)]
fn write_half(bytes: &[u8], digits: &mut [u8])
    requires bytes { length bytes.now ≡ 8 }
    requires digits { 2 * length bytes.now ≤ length digits.old }
    ensures { take (2 * length bytes.now) digits.new ≡ hex_of bytes.now }
{
    let half = u8x8::from_slice(bytes);
    let bytes = half.shuffle(
        u8x8::splat(0),
        [0, 1, 2, 3, 4, 5, 6, 7, 8, 9, 10, 11, 12, 13, 14, 15],
    );
    let (front, _) = digits_of(bytes);
    front.copy_to_slice(digits);
}

// The digits of 16 bytes: those of the first eight, and those of the last eight.
#[inline(always)]
fn digits_of(bytes: u8x16) -> (u8x16, u8x16)
    ensures long { (length result.0 ≡ 16) × (length result.1 ≡ 16) }
    ensures digits { result.0 ++ result.1 ≡ hex_of bytes }
{
    let high = glyphs(bytes >> u8x16::splat(4));
    let low = glyphs(bytes & u8x16::splat(15));
    high.interleave(low)
}

// Each digit below 16 as a lower-case hexadecimal one.
#[inline(always)]
fn glyphs(digits: u8x16) -> u8x16
    requires { (k : ℕ) → k < 16 → slice_index digits k < 16 }
    ensures long { length result ≡ 16 }
    ensures each { (k : ℕ) → k < 16 → slice_index result k ≡ digit_glyph false (slice_index digits k) }
{
    let further = digits
        .simd_lt(u8x16::splat(10))
        .select(u8x16::splat(0), u8x16::splat(b'a' - 10 - b'0'));
    digits + u8x16::splat(b'0') + further
}

// The same, by the vector that the bytes fit.
#[inline(always)]
fn write_pairs(bytes: &[u8], digits: &mut [u8])
    requires { 2 * length bytes.now ≤ length digits.old }
    ensures { take (2 * length bytes.now) digits.new ≡ hex_of bytes.now }
{
    if bytes.len() == WIDTH / 2 {
        write_half(bytes, digits);
    } else if bytes.len() < WIDTH {
        write_few_pairs(bytes, digits);
    } else {
        write_many_pairs(bytes, digits);
    }
}

/// Writes each byte as two digits.
#[inline(always)]
pub fn write_data(bytes: &mut [u8], start: usize, source: &[u8]) -> usize
    requires { start + 2 * length source.now ≤ length bytes.old }
    ensures adds { Adds bytes.old bytes.new start result (hex_of source.now) }
    ensures end { result ≡ start + 2 * length source.now }
{
    write_pairs(source, &mut bytes[start..]);
    start + 2 * source.len()
}

// A hexadecimal number of one or two digits.
#[inline(always)]
fn write_short_hex(bytes: &mut [u8], start: usize, number: u64) -> usize
    requires { (number < 256) × (start + length (digits 16 false number) ≤ length bytes.old) }
    ensures { Adds bytes.old bytes.new start result (digits 16 false number) }
{
    if number < 16 {
        write_word(bytes, start, &[glyph(number as u8)])
    } else {
        write_word(bytes, start, &pair_of(number as u8))
    }
}

// A hexadecimal number of up to four digits.
#[inline(always)]
fn write_few_hex(bytes: &mut [u8], start: usize, number: u64) -> usize
    requires { (number < 65536) × (start + length (digits 16 false number) ≤ length bytes.old) }
    ensures { Adds bytes.old bytes.new start result (digits 16 false number) }
{
    if number < 256 {
        return write_short_hex(bytes, start, number);
    }
    let place = write_short_hex(bytes, start, number / 256);
    write_word(bytes, place, &pair_of((number % 256) as u8))
}

// The last four digits follow those in front of them. Up to eight take no call.
fn write_hex(bytes: &mut [u8], start: usize, number: u64) -> usize
    requires { start + length (digits 16 false number) ≤ length bytes.old }
    ensures { Adds bytes.old bytes.new start result (digits 16 false number) }
{
    if number < 65536 {
        return write_few_hex(bytes, start, number);
    }
    let high = number / 65536;
    let place = if high < 65536 {
        write_few_hex(bytes, start, high)
    } else {
        write_hex(bytes, start, high)
    };
    let low = number % 65536;
    let last = write_word(bytes, place, &pair_of((low / 256) as u8));
    write_word(bytes, last, &pair_of((low % 256) as u8))
}

// An address or an offset of an access. Most offsets have up to four digits, and that takes no call.
#[inline(always)]
fn write_address(bytes: &mut [u8], start: usize, address: u64) -> usize
    requires { start + 18 ≤ length bytes.old }
    ensures adds { Adds bytes.old bytes.new start result (address_word address) }
    ensures within { result ≤ start + 18 }
{
    let place = write_word(bytes, start, b"0x");
    if address < 65536 {
        write_few_hex(bytes, place, address)
    } else {
        write_hex(bytes, place, address)
    }
}

/// Writes a position and a time, each with a space after it.
#[inline(always)]
pub fn write_times(bytes: &mut [u8], start: usize, position: u64, time: Ps) -> usize
    requires { start + 42 ≤ length bytes.old }
    ensures adds { Adds bytes.old bytes.new start result (times_text position time) }
    ensures within { result ≤ start + 42 }
{
    let place = write_count(bytes, start, position);
    write_count(bytes, place, time)
}

/// Writes the number of a transaction, between a dot and a space.
#[inline(always)]
pub fn write_seq(bytes: &mut [u8], start: usize, seq: u64) -> usize
    requires { start + 22 ≤ length bytes.old }
    ensures adds { Adds bytes.old bytes.new start result (seq_text seq) }
    ensures within { result ≤ start + 22 }
{
    let place = write_word(bytes, start, b".");
    write_count(bytes, place, seq)
}

// The way of an access, and a space.
#[inline(always)]
fn write_way(bytes: &mut [u8], start: usize, way: Way) -> usize
    requires { start + 28 ≤ length bytes.old }
    ensures adds { Adds bytes.old bytes.new start result (way_word way ++ codes " ") }
    ensures within { result ≤ start + 28 }
{
    match way {
        Way::Blocking => write_word(bytes, start, b"blocking "),
        Way::FourPhase => write_word(bytes, start, b"fourphase "),
        Way::Direct(gate) => {
            let place = write_word(bytes, start, b"direct:");
            write_spaced(bytes, place, gate as u64)
        }
        Way::Debug => write_word(bytes, start, b"debug "),
    }
}

// A command, and a space.
#[inline(always)]
fn write_command(bytes: &mut [u8], start: usize, command: Command) -> usize
    requires { start + 10 ≤ length bytes.old }
    ensures adds { Adds bytes.old bytes.new start result (command_word command ++ codes " ") }
    ensures within { result ≤ start + 10 }
{
    match command {
        Command::Read => write_word(bytes, start, b"read "),
        Command::Write => write_word(bytes, start, b"write "),
        Command::Ignore => write_word(bytes, start, b"ignore "),
        Command::FetchAdd => write_word(bytes, start, b"fetch_add "),
    }
}

// What an access asked for, from the space before it to its enables.
#[inline(always)]
fn write_asked(bytes: &mut [u8], start: usize, facts: Facts) -> usize
    requires { start + 82 ≤ length bytes.old }
    ensures adds { Adds bytes.old bytes.new start result (asked_text facts) }
    ensures within { result ≤ start + 82 }
{
    let way = write_word(bytes, start, b" ");
    let command = write_way(bytes, way, facts.way);
    let offset = write_command(bytes, command, facts.command);
    let length = write_address(bytes, offset, facts.offset);
    let number = write_word(bytes, length, b" ");
    let enables = write_number(bytes, number, facts.length);
    write_word(bytes, enables, b" be=")
}

// A width, with the space before its word and one behind it.
#[inline(always)]
fn write_width(bytes: &mut [u8], start: usize, width: u64) -> usize
    requires { start + 25 ≤ length bytes.old }
    ensures adds { Adds bytes.old bytes.new start result (width_text width) }
    ensures within { result ≤ start + 25 }
{
    let number = write_word(bytes, start, b" sw=");
    write_spaced(bytes, number, width)
}

/// Writes what an access without enables asked for, with the space behind it.
#[inline(always)]
pub fn write_unmasked(bytes: &mut [u8], start: usize, facts: Facts) -> usize
    requires { start + 108 ≤ length bytes.old }
    ensures adds { Adds bytes.old bytes.new start result (unmasked_text facts) }
    ensures within { result ≤ start + 108 }
{
    let enables = write_asked(bytes, start, facts);
    let width = write_word(bytes, enables, b"-");
    write_width(bytes, width, facts.width)
}

/// Writes a status after a space, with the end of the line.
#[inline(always)]
pub fn write_status(bytes: &mut [u8], start: usize, status: Response) -> usize
    requires { start + 19 ≤ length bytes.old }
    ensures adds { Adds bytes.old bytes.new start result (status_text status) }
    ensures within { result ≤ start + 19 }
{
    match status {
        Response::Ok => write_word(bytes, start, b" ok\n"),
        Response::Incomplete => write_word(bytes, start, b" incomplete\n"),
        Response::GenericError => write_word(bytes, start, b" generic_error\n"),
        Response::AddressError => write_word(bytes, start, b" address_error\n"),
        Response::CommandError => write_word(bytes, start, b" command_error\n"),
        Response::BurstError => write_word(bytes, start, b" burst_error\n"),
        Response::ByteEnableError => write_word(bytes, start, b" byte_enable_error\n"),
    }
}

/// Writes a piece.
#[inline(always)]
pub fn write_piece(bytes: &mut [u8], start: usize, piece: LinePiece) -> usize
    requires { start + 128 ≤ length bytes.old }
    ensures adds { Adds bytes.old bytes.new start result (piece_text piece) }
    ensures within { result ≤ start + 128 }
{
    match piece {
        LinePiece::Number(number) => write_number(bytes, start, number),
        LinePiece::Address(address) => write_address(bytes, start, address),
        LinePiece::Times { position, time } => write_times(bytes, start, position, time),
        LinePiece::Seq(seq) => write_seq(bytes, start, seq),
        LinePiece::Asked(facts) => write_asked(bytes, start, facts),
        LinePiece::Width(width) => write_width(bytes, start, width),
        LinePiece::Status(status) => write_status(bytes, start, status),
    }
}
