// Four bytes as a number.
ghost use Rattle.std.specs.Prelude.{◌≡◌, length};
ghost use Rattle.lane_copy.specs.Lanes.{merged};
ghost use Rattle.tlm_model.specs.Numbers.{added, le_number};

use lane_copy::merge;

/// Four bytes as a number, the least first, plus another, modulo 2^32.
pub fn added(bytes: &[u8], number: u32) -> [u8; 4]
    requires { length bytes.now ≡ 4 }
    ensures { result ≡ added bytes.now number }
{
    number_of(bytes).wrapping_add(number).to_le_bytes()
}

fn number_of(bytes: &[u8]) -> u32
    requires { length bytes.now ≡ 4 }
    ensures { result ≡ le_number bytes.now }
{
    u32::from_le_bytes([bytes[0], bytes[1], bytes[2], bytes[3]])
}

/// The places become their sum with the operand, and in its place stands what was found there.
pub(crate) fn fetch_word(word: &mut [u8], enables: &[u8], places: &mut [u8])
    requires word { length word.old ≡ 4 }
    requires places { length places.old ≡ 4 }
    ensures word { word.new ≡ merged word.old places.old enables.now }
    ensures places { let found = merged word.old places.old enables.now in
        places.new ≡ merged places.old (added found (le_number word.old)) enables.now }
{
    let operand = number_of(word);
    merge(word, places, enables);
    merge(places, &added(word, operand), enables);
}
