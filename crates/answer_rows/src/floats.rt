// Floats one after the other.
ghost use Rattle.std.specs.Prelude.{◌≡◌, ◌+◌, ◌*◌, ◌≤◌, length};
ghost use mathlib.Core.List.{flat_map};
ghost use Rattle.spec.specs.Bytes.{float_bytes};
ghost use Rattle.wire.specs.Splice.{splice};

use answer_format::FLOAT_BYTES;
use wire::write::put_f32;

pub fn put_floats(out: &mut [u8], at: usize, values: &[f32])
    requires { at + 4 * length values.now ≤ length out.old }
    ensures { out.new ≡ splice out.old at (flat_map float_bytes values.now) }
{
    let mut here = at;
    for value in values {
        put_f32(out, here, *value);
        here += FLOAT_BYTES;
    }
}
