// What an access that was logged did to the bytes of its memory.
ghost use Rattle.std.specs.Prelude.{◌≡◌, ◌<◌, ◌≤◌, ◌%◌, ◌^◌, length, slice_index, slice_set, MatchOption, if◌then◌else◌};
ghost use Rattle.tlm_model.specs.Numbers.{added, le_number};
ghost use Rattle.tlm_model.specs.Store.{is_enabled, place_of, put_from, store_after, taken_from};
ghost use Rattle.store_replay.specs.Replay.{access_in};

use entry_log::LoggedAccess;
use lane_copy::is_enabled;
use tlm_types::{Command, Response, Way};

// Where data byte k goes, if that is among so many bytes.
fn place_of(access: &LoggedAccess<'_>, k: usize, size: usize) -> Option<usize>
    ensures { MatchOption result (size ≤ place_of (access_in access.now) k) (λ p. (p ≡ place_of (access_in access.now) k) × (p < size)) }
{
    let width = access.facts.width;
    let step = if width == 0 {
        k as u64
    } else {
        k as u64 % width
    };
    let place = access.facts.offset.checked_add(step)?;
    if place < size as u64 {
        Some(place as usize)
    } else {
        None
    }
}

// Puts data byte k where it is enabled.
fn put_byte(store: &mut [u8], access: &LoggedAccess<'_>, k: usize, byte: u8)
    ensures { store.new ≡ (if is_enabled (access_in access.now) k then slice_set store.old (place_of (access_in access.now) k) byte else store.old) }
{
    if !is_enabled(access.enables, k) {
        return;
    }
    if let Some(place) = place_of(access, k, store.len()) {
        store[place] = byte;
    }
}

// Puts these data bytes.
fn put(store: &mut [u8], access: &LoggedAccess<'_>, bytes: &[u8])
    ensures { store.new ≡ put_from (access_in access.now) 0 bytes.now store.old }
{
    for (k, byte) in bytes.iter().enumerate() {
        put_byte(store, access, k, *byte);
    }
}

// The byte at an index, and 0 where there is none.
fn byte_at(bytes: &[u8], index: usize) -> u8
    ensures { result ≡ slice_index bytes.now index }
{
    bytes.get(index).copied().unwrap_or(0)
}

// What data byte k of a fetch_add finds, and 0 where it has no such byte.
fn found_byte(store: &[u8], access: &LoggedAccess<'_>, k: usize) -> u8
    ensures { result ≡ slice_index (taken_from (access_in access.now) 0 access.now.sent.now store.now) k }
{
    let Some(byte) = access.sent.get(k) else {
        return 0;
    };
    if !is_enabled(access.enables, k) {
        return *byte;
    }
    match place_of(access, k, store.len()) {
        Some(place) => store[place],
        None => 0,
    }
}

// The number of some bytes, modulo 2^32.
fn word_of(bytes: &[u8]) -> u32
    ensures { result ≡ le_number bytes.now % 2 ^ 32 }
{
    u32::from_le_bytes([
        byte_at(bytes, 0),
        byte_at(bytes, 1),
        byte_at(bytes, 2),
        byte_at(bytes, 3),
    ])
}

// The number of what a fetch_add finds, modulo 2^32.
fn found_word(store: &[u8], access: &LoggedAccess<'_>) -> u32
    ensures { result ≡ le_number (taken_from (access_in access.now) 0 access.now.sent.now store.now) % 2 ^ 32 }
{
    u32::from_le_bytes([
        found_byte(store, access, 0),
        found_byte(store, access, 1),
        found_byte(store, access, 2),
        found_byte(store, access, 3),
    ])
}

// What a fetch_add puts.
fn sum_of(store: &[u8], access: &LoggedAccess<'_>) -> [u8; 4]
    ensures { result ≡ added (taken_from (access_in access.now) 0 access.now.sent.now store.now) (le_number access.now.sent.now) }
{
    let found = found_word(store, access);
    found.wrapping_add(word_of(access.sent)).to_le_bytes()
}

/// Does to a memory's bytes what an access did that was logged.
pub(crate) fn apply(store: &mut [u8], access: &LoggedAccess<'_>)
    ensures { store.new ≡ store_after access.now.facts.way access.now.facts.status (access_in access.now) store.old }
{
    if access.facts.way == Way::Debug || access.facts.status != Response::Ok {
        return;
    }
    match access.facts.command {
        Command::Write => put(store, access, access.sent),
        Command::FetchAdd => {
            let sum = sum_of(store, access);
            put(store, access, &sum);
        }
        Command::Read | Command::Ignore => {}
    }
}
