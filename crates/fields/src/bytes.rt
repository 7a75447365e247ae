// Numbers in bytes, the low byte first. `at` is where a field lies in a sheet: a slice from there on would only move the sum to the call.
ghost use Rattle.std.specs.Prelude.{◌≡◌, ◌<◌, ◌≤◌, ◌+◌, length, drop};
ghost use Rattle.std.proofs.lemmas.List.Edits.{sets};
ghost use Rattle.fields.specs.Bytes.{value_in, bytes_of};

// The number in the byte at `at`.
#[tactic(auto, using(crate::proofs::ByteLaws::reads), unfolding(crate::specs::Bytes::value_in))]
pub fn read8(s: &[u8], at: usize) -> u32
    requires { at + 1 ≤ length s.now }
    ensures { (result ≡ value_in 1 (drop at s.now)) × (result < 256) }
{
    u32::from(s[at])
}

// The number in the two bytes from `at` on.
#[tactic(auto, using(crate::proofs::ByteLaws::reads), unfolding(crate::specs::Bytes::value_in))]
pub fn read16(s: &[u8], at: usize) -> u32
    requires { at + 2 ≤ length s.now }
    ensures { (result ≡ value_in 2 (drop at s.now)) × (result < 65536) }
{
    u32::from(u16::from_le_bytes([s[at], s[at + 1]]))
}

// The number in the four bytes from `at` on.
#[tactic(auto, using(crate::proofs::ByteLaws::reads), unfolding(crate::specs::Bytes::value_in))]
pub fn read32(s: &[u8], at: usize) -> u32
    requires { at + 4 ≤ length s.now }
    ensures { result ≡ value_in 4 (drop at s.now) }
{
    u32::from_le_bytes([s[at], s[at + 1], s[at + 2], s[at + 3]])
}

// Puts `value` into the `width` bytes from `at` on. Not by `to_le_bytes`: the width is told by the caller, and is no constant.
#[tactic(auto, using(crate::proofs::PutLaws::number_turn, crate::proofs::PutLaws::number_put))]
pub fn put_number(out: &mut [u8], at: usize, width: usize, value: u32)
    requires { at + width ≤ length out.old }
    ensures { out.new ≡ sets out.old at (bytes_of width value) }
{
    let mut left = value;
    for byte in &mut out[at..at + width] {
        *byte = (left % 256) as u8;
        left /= 256;
    }
}

// Puts `bytes` into the slice from `at` on.
#[tactic(auto, using(crate::proofs::PutLaws::part_put))]
pub fn put_bytes(out: &mut [u8], at: usize, bytes: &[u8])
    requires { at + length bytes.now ≤ length out.old }
    ensures { out.new ≡ sets out.old at bytes.now }
{
    out[at..at + bytes.len()].copy_from_slice(bytes);
}
