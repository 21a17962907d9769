// Streaming: the data bytes go round and round over as many places as the streaming width says.
ghost use Rattle.std.specs.Prelude.{◌≡◌, ◌<◌, length};
ghost use Rattle.generic_payload.specs.Payload.{access_from_start};
ghost use Rattle.tlm_model.specs.Store.{put_from, taken_from};

use lane_copy::is_enabled;

/// Puts the enabled bytes to their places, in rising order.
pub fn stream_into(places: &mut [u8], bytes: &[u8], enables: &[u8])
    requires { 0 < length places.old }
    ensures { let access = access_from_start bytes.now enables.now (length places.old) in
        places.new ≡ put_from access 0 bytes.now places.old }
{
    for (k, byte) in bytes.iter().enumerate() {
        if is_enabled(enables, k) {
            let place = k % places.len();
            places[place] = *byte;
        }
    }
}

/// Fills the enabled bytes from their places.
pub fn stream_from(bytes: &mut [u8], places: &[u8], enables: &[u8])
    requires { 0 < length places.now }
    ensures { let access = access_from_start bytes.old enables.now (length places.now) in
        bytes.new ≡ taken_from access 0 bytes.old places.now }
{
    for k in 0..bytes.len() {
        if is_enabled(enables, k) {
            bytes[k] = places[k % places.len()];
        }
    }
}
