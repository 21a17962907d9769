// Masked copies, 32 bytes at a time, and a plain loop for the bytes that are left.
ghost use Rattle.std.specs.Prelude.{◌≡◌, ℕ, ◌+◌, ◌%◌, ◌<◌, ◌≤◌, ◌↔◌, IsTrue, All, length, slice_index};
ghost use Rattle.tlm_types.specs.Enables.{is_lane_enabled};
ghost use Rattle.lane_copy.specs.Lanes as lanes;

use std::simd::prelude::*;

/// The element of byte enables that lets its byte through (`TLM_BYTE_ENABLED`).
const ENABLED: u8 = 0xff;

/// How many bytes a vector has.
const WIDTH: usize = 32;

/// For so many bytes at most, enables are written out that are fewer than a vector has bytes.
const WRITTEN: usize = 256;

/// Whether byte `index` is enabled.
pub fn is_enabled(enables: &[u8], index: usize) -> bool
    ensures { result ≡ is_lane_enabled enables.now index }
{
    enables.is_empty() || enables[index % enables.len()] == ENABLED
}

// Most accesses are of a word or of two, whose copy takes no call.
#[inline(always)]
fn copy(dst: &mut [u8], src: &[u8])
    requires { length dst.old ≡ length src.now }
    ensures { dst.new ≡ src.now }
{
    match src.len() {
        4 => dst[..4].copy_from_slice(&src[..4]),
        8 => dst[..8].copy_from_slice(&src[..8]),
        _ => dst.copy_from_slice(src),
    }
}

/// Copies the enabled bytes of `src` to the same places of `dst`. The other bytes of `dst` stay.
#[inline(always)]
pub fn merge(dst: &mut [u8], src: &[u8], enables: &[u8])
    requires { length dst.old ≡ length src.now }
    ensures { dst.new ≡ lanes.merged dst.old src.now enables.now }
{
    if enables.is_empty() {
        copy(dst, src);
    } else {
        merge_enabled(dst, src, enables);
    }
}

// A few enables are written out several times first, so that vectors are filled.
fn merge_enabled(dst: &mut [u8], src: &[u8], enables: &[u8])
    requires same { length dst.old ≡ length src.now }
    requires some { 0 < length enables.now }
    ensures { dst.new ≡ lanes.merged dst.old src.now enables.now }
{
    if WIDTH <= enables.len() || src.len() <= 2 * WIDTH {
        merge_stretches(dst, src, enables);
        return;
    }
    let mut written = [0u8; WRITTEN];
    merge_written(dst, src, enables, &mut written);
}

// The same with room in which the enables are written out as often as they stand there whole.
fn merge_written(dst: &mut [u8], src: &[u8], enables: &[u8], room: &mut [u8])
    requires same { length dst.old ≡ length src.now }
    requires some { 0 < length enables.now }
    requires few { length enables.now ≤ length room.old }
    ensures { dst.new ≡ lanes.merged dst.old src.now enables.now }
{
    let count = room.len() - room.len() % enables.len();
    let written = &mut room[..count];
    expand(written, enables);
    merge_stretches(dst, src, written);
}

// The enables govern a stretch of as many bytes at a time.
fn merge_stretches(dst: &mut [u8], src: &[u8], enables: &[u8])
    requires same { length dst.old ≡ length src.now }
    requires some { 0 < length enables.now }
    ensures { dst.new ≡ lanes.merged dst.old src.now enables.now }
{
    let mut done = 0;
    while done < src.len() {
        let count = enables.len().min(src.len() - done);
        let end = done + count;
        merge_stretch(&mut dst[done..end], &src[done..end], &enables[..count]);
        done = end;
    }
}

// The masked copy of a stretch with an enable for each byte.
fn merge_stretch(dst: &mut [u8], src: &[u8], enables: &[u8])
    requires same { length dst.old ≡ length src.now }
    requires each { length dst.old ≡ length enables.now }
    ensures { (k : ℕ) → k < length dst.old → slice_index dst.new k
        ≡ lanes.chosen (slice_index enables.now k) (slice_index src.now k) (slice_index dst.old k) }
{
    let mut done = 0;
    while WIDTH <= src.len() - done {
        let end = done + WIDTH;
        merge_vector(&mut dst[done..end], &src[done..end], &enables[done..end]);
        done = end;
    }
    merge_rest(&mut dst[done..], &src[done..], &enables[done..]);
}

// The masked copy of 32 bytes.
#[inline(always)]
fn merge_vector(dst: &mut [u8], src: &[u8], enables: &[u8])
    requires dst { length dst.old ≡ 32 }
    requires src { length src.now ≡ 32 }
    requires enables { length enables.now ≡ 32 }
    ensures { (k : ℕ) → k < 32 → slice_index dst.new k
        ≡ lanes.chosen (slice_index enables.now k) (slice_index src.now k) (slice_index dst.old k) }
{
    let enabled = u8x32::from_slice(enables).simd_eq(u8x32::splat(ENABLED));
    let old = u8x32::from_slice(dst);
    enabled
        .select(u8x32::from_slice(src), old)
        .copy_to_slice(dst);
}

#[inline(always)]
fn chosen(enable: u8, byte: u8, old: u8) -> u8
    ensures { result ≡ lanes.chosen enable byte old }
{
    if enable == ENABLED { byte } else { old }
}

// The masked copy byte by byte.
#[inline(always)]
fn merge_rest(dst: &mut [u8], src: &[u8], enables: &[u8])
    requires same { length dst.old ≡ length src.now }
    requires each { length dst.old ≡ length enables.now }
    ensures { (k : ℕ) → k < length dst.old → slice_index dst.new k
        ≡ lanes.chosen (slice_index enables.now k) (slice_index src.now k) (slice_index dst.old k) }
{
    for k in 0..src.len() {
        dst[k] = chosen(enables[k], src[k], dst[k]);
    }
}

/// Writes the enable of each byte to its place in `out`: the enables repeat.
pub fn expand(out: &mut [u8], enables: &[u8])
    requires { 0 < length enables.now }
    ensures { out.new ≡ lanes.expanded (length out.old) enables.now }
{
    let mut done = enables.len().min(out.len());
    out[..done].copy_from_slice(&enables[..done]);
    while done < out.len() {
        let count = done.min(out.len() - done);
        repeat(out, done, count);
        done += count;
    }
}

// Copies the first `count` bytes to the place behind the first `done`.
fn repeat(out: &mut [u8], done: usize, count: usize)
    requires there { count ≤ done }
    requires room { done + count ≤ length out.old }
    ensures kept { (k : ℕ) → k < done → slice_index out.new k ≡ slice_index out.old k }
    ensures copied { (k : ℕ) → k < count → slice_index out.new (done + k) ≡ slice_index out.old k }
{
    let (front, rest) = out.split_at_mut(done);
    rest[..count].copy_from_slice(&front[..count]);
}

/// Whether all bytes are 0.
pub fn is_zero(line: &[u8]) -> bool
    ensures { IsTrue result ↔ All (λ byte. byte ≡ 0) line.now }
{
    let mut done = 0;
    while WIDTH <= line.len() - done {
        if !is_zero_vector(&line[done..done + WIDTH]) {
            return false;
        }
        done += WIDTH;
    }
    is_zero_rest(&line[done..])
}

// The same byte by byte.
fn is_zero_rest(line: &[u8]) -> bool
    ensures { IsTrue result ↔ All (λ byte. byte ≡ 0) line.now }
{
    line.iter().all(|byte| *byte == 0)
}

// Whether 32 bytes are 0.
#[inline(always)]
fn is_zero_vector(line: &[u8]) -> bool
    requires { length line.now ≡ 32 }
    ensures { IsTrue result ↔ All (λ byte. byte ≡ 0) line.now }
{
    u8x32::from_slice(line)
        .simd_ne(u8x32::splat(0))
        .to_bitmask()
        == 0
}
