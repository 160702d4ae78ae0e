// One TLV, put into an output. No public function has a `requires`.
#![tactic(auto)]

ghost use Rattle.std.specs.Prelude.{◌≡◌, length};
ghost use Rattle.tlv_writer.specs.Put.{tlv_placed, place_behind};

use lent::put;

// Puts one TLV at this place of the output, and answers the place behind it. Where it does not fit, or its value has more than 65,535 bytes, the output
// stays as it is, and the answer is the same place.
pub fn put_tlv(tlv_type: u8, value: &[u8], out: &mut [u8], at: usize) -> usize
    ensures { (result ≡ place_behind tlv_type value.now at (length out.old))
        × (out.new ≡ tlv_placed tlv_type value.now at out.old) }
{
    let size = value.len();
    let needed = 3 + size;
    if 65535 < size || out.len() < at || out.len() - at < needed {
        return at;
    }
    let [high, low] = (size as u16).to_be_bytes();
    let head = [tlv_type, high, low];
    put(&head, out, at);
    put(value, out, at + 3);
    at + 3 + size
}
