// Lent bytes: parts of them, cut at their end, and bytes put into them. No public function has a `requires`.
#![tactic(auto)]

ghost use Rattle.std.specs.Prelude.{◌≡◌, ◌+◌, min, length, take, drop, get_or};
ghost use Rattle.lent.specs.Placed.{placed};

// The first n bytes, as the very part of the lent ones.
pub fn front(bytes: &[u8], n: usize) -> &[u8]
    ensures { (result.ref_ptr.0 ≡ bytes.entry.ref_ptr.0)
        × (result.ref_ptr.1 ≡ bytes.entry.ref_ptr.1)
        × (result.now ≡ take n bytes.now) }
{
    let end = n.min(bytes.len());
    &bytes[..end]
}

// The bytes from this place on, as the very part of the lent ones; the empty part at their end, where the place lies beyond it.
pub fn behind(bytes: &[u8], at: usize) -> &[u8]
    ensures { (result.ref_ptr.0 ≡ bytes.entry.ref_ptr.0)
        × (result.ref_ptr.1 ≡ bytes.entry.ref_ptr.1 + min at (length bytes.now))
        × (result.now ≡ drop at bytes.now) }
{
    let start = at.min(bytes.len());
    &bytes[start..]
}

// The byte at this place; 0 behind the end.
pub fn byte_at(bytes: &[u8], at: usize) -> u8
    ensures { result ≡ get_or bytes.now at 0 }
{
    bytes.get(at).copied().unwrap_or(0)
}

// Puts the bytes at this place of the output, where they fit; else the output stays as it is.
pub fn put(bytes: &[u8], out: &mut [u8], at: usize)
    ensures { out.new ≡ placed bytes.now at out.old }
{
    if at <= out.len() {
        if bytes.len() <= out.len() - at {
            // No `copy_from_slice`: that is a call of memmove, also where there is no byte (docs/DECISIONS.md).
            for (i, byte) in bytes.iter().enumerate() {
                out[at + i] = *byte;
            }
        }
    }
}
