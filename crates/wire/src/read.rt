// Numbers read at a place. A byte past the end of the slice counts as 0.
ghost use Rattle.std.specs.Prelude.{◌≡◌, ◌+◌, ◌≤◌, ◌<◌, ◌^◌, length, drop, get_or};
ghost use Rattle.std.specs.Float.{binary32};
ghost use Rattle.std.specs.Float.Ieee.{of_bits};
ghost use Rattle.spec.specs.Bytes.{be, signed, float};
ghost use Rattle.wire.specs.Padded.{padded_of};

use crate::slice::tail;

// The byte at `at`.
pub fn byte_at(s: &[u8], at: usize) -> u8
    ensures { result ≡ get_or s.now at 0 }
{
    s.get(at).copied().unwrap_or(0)
}

// The number that the bytes hold.
fn number_of(bytes: &[u8]) -> u64
    requires { length bytes.now ≤ 8 }
    ensures { (result ≡ be (length bytes.now) bytes.now) × (result < 256 ^ length bytes.now) }
{
    let mut n: u64 = 0;
    for byte in bytes {
        n = n * 256 + u64::from(*byte);
    }
    n
}

// Fills `out` with the first bytes of the row, and with 0 for each that is missing.
pub fn pad(out: &mut [u8], row: &[u8])
    ensures { out.new ≡ padded_of (length out.old) row.now }
{
    for (i, byte) in out.iter_mut().enumerate() {
        *byte = byte_at(row, i);
    }
}

// The number that the `width` bytes at `at` hold, with 0 for each that is missing; 0 at once where all are.
#[cold]
fn number_padded(s: &[u8], at: usize, width: usize) -> u64
    requires { width ≤ 8 }
    ensures { (result ≡ be width (drop at s.now)) × (result < 256 ^ width) }
{
    if s.len() <= at {
        return 0;
    }
    let mut bytes = [0; 8];
    pad(&mut bytes, tail(s, at));
    number_of(&bytes[..width])
}

// The same. The bytes are nearly always there, and then no byte is asked whether it is.
pub fn number_at(s: &[u8], at: usize, width: usize) -> u64
    requires { width ≤ 8 }
    ensures { (result ≡ be width (drop at s.now)) × (result < 256 ^ width) }
{
    if width <= s.len() && at <= s.len() - width {
        return number_within(s, at, width);
    }
    number_padded(s, at, width)
}

// One line for each type over one function: `read::<u16>(s, at)` would be no plainer than `u16_at(s, at)`.

pub fn u8_at(s: &[u8], at: usize) -> u8
    ensures { result ≡ be 1 (drop at s.now) }
{
    number_at(s, at, 1) as u8
}

pub fn u16_at(s: &[u8], at: usize) -> u16
    ensures { result ≡ be 2 (drop at s.now) }
{
    number_at(s, at, 2) as u16
}

pub fn u32_at(s: &[u8], at: usize) -> u32
    ensures { result ≡ be 4 (drop at s.now) }
{
    number_at(s, at, 4) as u32
}

#[tactic(auto, using(crate::proofs::Signed::signed_bits))]
pub fn i16_at(s: &[u8], at: usize) -> i16
    ensures { result ≡ signed 2 (drop at s.now) }
{
    u16_at(s, at).cast_signed()
}

#[tactic(auto, using(crate::proofs::Signed::signed_bits))]
pub fn i32_at(s: &[u8], at: usize) -> i32
    ensures { result ≡ signed 4 (drop at s.now) }
{
    u32_at(s, at).cast_signed()
}

// The float of a pattern. Every pattern of a NaN gives a NaN.
#[tactic(auto, using(crate::proofs::Patterns::nan_read, std::proofs::lemmas::Float::not_nan_f32_bits))]
pub fn f32_of(bits: u32) -> f32
    ensures { result ≡ of_bits binary32 bits }
{
    if 0x7f80_0000 < bits % 0x8000_0000 {
        return f32::NAN;
    }
    f32::from_bits(bits)
}

#[tactic(auto, unfolding(spec::specs::Bytes::float))]
pub fn f32_at(s: &[u8], at: usize) -> f32
    ensures { result ≡ float (drop at s.now) }
{
    f32_of(u32_at(s, at))
}

// ---- the same of bytes that are known to be there: no byte is asked whether it is

fn number_within(s: &[u8], at: usize, width: usize) -> u64
    requires { (width ≤ 8) × (at + width ≤ length s.now) }
    ensures { (result ≡ be width (drop at s.now)) × (result < 256 ^ width) }
{
    number_of(&s[at..at + width])
}

pub fn u8_within(s: &[u8], at: usize) -> u8
    requires { at + 1 ≤ length s.now }
    ensures { result ≡ be 1 (drop at s.now) }
{
    number_within(s, at, 1) as u8
}

pub fn u16_within(s: &[u8], at: usize) -> u16
    requires { at + 2 ≤ length s.now }
    ensures { result ≡ be 2 (drop at s.now) }
{
    number_within(s, at, 2) as u16
}

pub fn u32_within(s: &[u8], at: usize) -> u32
    requires { at + 4 ≤ length s.now }
    ensures { result ≡ be 4 (drop at s.now) }
{
    number_within(s, at, 4) as u32
}

#[tactic(auto, using(crate::proofs::Signed::signed_bits))]
pub fn i16_within(s: &[u8], at: usize) -> i16
    requires { at + 2 ≤ length s.now }
    ensures { result ≡ signed 2 (drop at s.now) }
{
    u16_within(s, at).cast_signed()
}

#[tactic(auto, using(crate::proofs::Signed::signed_bits))]
pub fn i32_within(s: &[u8], at: usize) -> i32
    requires { at + 4 ≤ length s.now }
    ensures { result ≡ signed 4 (drop at s.now) }
{
    u32_within(s, at).cast_signed()
}

#[tactic(auto, unfolding(spec::specs::Bytes::float))]
pub fn f32_within(s: &[u8], at: usize) -> f32
    requires { at + 4 ≤ length s.now }
    ensures { result ≡ float (drop at s.now) }
{
    f32_of(u32_within(s, at))
}
