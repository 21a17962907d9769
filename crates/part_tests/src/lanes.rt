// Masked copies.
use lane_copy::{expand, is_enabled, is_zero, merge};

// Whether each third byte, from the second one on, is zero, and the others are 7.
fn is_striped(line: &[u8]) -> bool {
    for (k, byte) in line.iter().enumerate() {
        let wanted = if k % 3 == 1 { 0 } else { 7 };
        if *byte != wanted {
            return false;
        }
    }
    true
}

#[test]
fn merges_enabled_bytes(rt: HostRuntime) {
    let mut line = [0u8; 70];
    merge(&mut line, &[7; 70], &[0xff, 0x00, 0xff]);
    assert!(rt; is_striped(&line));
    merge(&mut line, &[9; 70], &[]);
    assert!(rt; line.as_slice() == [9; 70].as_slice());
}

#[test]
fn enables_repeat(rt: HostRuntime) {
    let mut out = [1u8; 5];
    expand(&mut out, &[0xff, 0x00]);
    assert!(rt; out.as_slice() == [0xff, 0x00, 0xff, 0x00, 0xff].as_slice());
    expand(&mut out, &[0x00, 0xff, 0xff, 0xff, 0xff, 0xff, 0xff]);
    assert!(rt; out.as_slice() == [0x00, 0xff, 0xff, 0xff, 0xff].as_slice());
    assert!(rt; is_enabled(&[], 3) && is_enabled(&[0x00, 0xff], 3));
    assert!(rt; !is_enabled(&[0x00, 0xff], 4));
}

#[test]
fn tells_zeros(rt: HostRuntime) {
    let mut line = [0u8; 33];
    assert!(rt; is_zero(&line));
    line[32] = 1;
    assert!(rt; !is_zero(&line) && is_zero(&[]));
}
