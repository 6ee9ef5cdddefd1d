// Numbers written at a place: what the buffer holds afterwards, the bytes before and behind them included.
ghost use Rattle.std.specs.Prelude.{◌≡◌, ◌+◌, ◌≤◌, length};
ghost use Rattle.std.specs.Float.{binary32};
ghost use Rattle.std.specs.Float.Ieee.{to_bits};
ghost use Rattle.spec.specs.Bytes.{bytes, float_bytes};
ghost use Rattle.wire.specs.Splice.{splice};

// `n` in `width` bytes at `at`. No slice of `to_be_bytes`, since `width` may be any: zeros come before the eighth byte.
pub fn put_number(out: &mut [u8], at: usize, width: usize, n: u64)
    requires { at + width ≤ length out.old }
    ensures { out.new ≡ splice out.old at (bytes width n) }
{
    let mut rest = n;
    for i in (0..width).rev() {
        out[at + i] = (rest % 256) as u8;
        rest /= 256;
    }
}

pub fn put_u8(out: &mut [u8], at: usize, n: u8)
    requires { at + 1 ≤ length out.old }
    ensures { out.new ≡ splice out.old at (bytes 1 n) }
{
    put_number(out, at, 1, u64::from(n))
}

// A line for each type, as in `read`: `to_be_bytes` belongs to each number type, and to no trait that one function could be written over.

pub fn put_u16(out: &mut [u8], at: usize, n: u16)
    requires { at + 2 ≤ length out.old }
    ensures { out.new ≡ splice out.old at (bytes 2 n) }
{
    out[at..at + 2].copy_from_slice(&n.to_be_bytes());
}

pub fn put_u32(out: &mut [u8], at: usize, n: u32)
    requires { at + 4 ≤ length out.old }
    ensures { out.new ≡ splice out.old at (bytes 4 n) }
{
    out[at..at + 4].copy_from_slice(&n.to_be_bytes());
}

// The pattern of a float: of a NaN the one that the definition gives.
#[tactic(auto, using(crate::proofs::Patterns::nan_written))]
pub fn bits_of(x: f32) -> u32
    ensures { result ≡ to_bits binary32 x }
{
    if x.is_nan() { 0x7fc0_0000 } else { x.to_bits() }
}

#[tactic(auto, unfolding(spec::specs::Bytes::float_bytes))]
pub fn put_f32(out: &mut [u8], at: usize, x: f32)
    requires { at + 4 ≤ length out.old }
    ensures { out.new ≡ splice out.old at (float_bytes x) }
{
    put_u32(out, at, bits_of(x))
}
