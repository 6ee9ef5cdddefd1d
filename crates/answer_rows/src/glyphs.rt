// Glyph rows: a cluster's glyphs in order, each x from the widths before it.
ghost use Rattle.std.specs.Prelude.{◌≡◌, true, ◌+◌, ◌*◌, ◌≤◌, length, take, drop, neg_ℤ};
ghost use mathlib.Core.List.{flat_map};
ghost use Rattle.std.specs.Float.{binary32};
ghost use Rattle.std.specs.Float.Ieee.{of_int};
ghost use Rattle.spec.specs.Single.{+0, ◌+ᶠ◌};
ghost use Rattle.spec.specs.Check.{units_ok};
ghost use Rattle.spec.specs.Decode.{glyph_of};
ghost use Rattle.spec.specs.Answer.{glyph_row_size, glyph_row_bytes};
ghost use Rattle.spec.specs.Layout.{glyph_rows};
ghost use Rattle.job_rows.specs.Rows.{glyphs_at};
ghost use Rattle.wire.specs.Splice.{splice};
ghost use Rattle.answer_rows.specs.Glyphs.{glyph_row, units_of, units_in};

use answer_format::{GLYPH_FONT_AT, GLYPH_ROW_BYTES, GLYPH_X_AT, GLYPH_Y_AT};
use job_rows::rows::{glyph_at, glyph_of};
use job_rows::sizes::GLYPH_BYTES;
use spec::Glyph;
use wire::slice::tail;
use wire::write::{put_f32, put_u8, put_u32};

// The `count` places from `from` on, as many as there are.
pub fn glyph_places(rows: &[u32], from: usize, count: usize) -> &[u32]
    ensures { result.now ≡ take count (drop from rows.now) }
{
    let rest = &rows[from.min(rows.len())..];
    &rest[..count.min(rest.len())]
}

// Font units as a float: a cast is taken only of a whole number that is a float.
fn units(z: i32) -> f32
    requires { units_ok z ≡ true }
    ensures { result ≡ of_int binary32 z }
{
    z as f32
}

// The whole number is negated, so that 0 gives +0.
fn units_negated(z: i32) -> f32
    requires { units_ok z ≡ true }
    ensures { result ≡ of_int binary32 (neg_ℤ z) }
{
    (0 - z) as f32
}

// The row of a glyph before which the widths add up to `x`.
pub fn put_glyph(out: &mut [u8], at: usize, glyph: Glyph, x: f32)
    requires { (at + glyph_row_size ≤ length out.old) × (units_ok glyph.dx ≡ true) × (units_ok glyph.dy ≡ true) }
    ensures { out.new ≡ splice out.old at (glyph_row_bytes (glyph_row x glyph)) }
{
    put_u32(out, at, glyph.id);
    put_u8(out, at + GLYPH_FONT_AT, glyph.font);
    put_f32(out, at + GLYPH_X_AT, x + units(glyph.dx));
    put_f32(out, at + GLYPH_Y_AT, units_negated(glyph.dy));
}

// As `put_glyph`; the result is what the widths add up to with this glyph's.
fn put_next(out: &mut [u8], at: usize, glyph: Glyph, x: f32) -> f32
    requires { (at + glyph_row_size ≤ length out.old) × (units_of glyph ≡ true) }
    ensures { (out.new ≡ splice out.old at (glyph_row_bytes (glyph_row x glyph)))
        × (result ≡ x +ᶠ of_int binary32 glyph.width) }
{
    put_glyph(out, at, glyph, x);
    x + units(glyph.width)
}

// As `put_next`, of a glyph whose row is cut short. A function of its own, so that the fields of a whole row go straight from row to row.
#[cold]
fn put_padded(out: &mut [u8], at: usize, glyph: Glyph, x: f32) -> f32
    requires { (at + glyph_row_size ≤ length out.old) × (units_of glyph ≡ true) }
    ensures { (out.new ≡ splice out.old at (glyph_row_bytes (glyph_row x glyph)))
        × (result ≡ x +ᶠ of_int binary32 glyph.width) }
{
    put_next(out, at, glyph, x)
}

// The glyph at `place` in the record `s`. A row that is whole, as nearly every one is, is read in place.
fn put_glyph_at(out: &mut [u8], at: usize, s: &[u8], place: usize, x: f32) -> f32
    requires { (at + glyph_row_size ≤ length out.old) × (units_of (glyph_of (drop place s.now)) ≡ true) }
    ensures { (out.new ≡ splice out.old at (glyph_row_bytes (glyph_row x (glyph_of (drop place s.now)))))
        × (result ≡ x +ᶠ of_int binary32 (glyph_of (drop place s.now)).width) }
{
    let row = tail(s, place);
    if row.len() < GLYPH_BYTES {
        return put_padded(out, at, glyph_at(s, place), x);
    }
    put_next(out, at, glyph_of(row), x)
}

// The rows of the glyphs at `places` in the record `s`; the result is the place behind them.
pub fn put_glyphs(out: &mut [u8], at: usize, s: &[u8], places: &[u32]) -> usize
    requires { (at + glyph_row_size * length places.now ≤ length out.old)
        × (units_in (glyphs_at s.now places.now) ≡ true) }
    ensures { (out.new ≡ splice out.old at
        (flat_map glyph_row_bytes (glyph_rows +0 (glyphs_at s.now places.now))))
        × (result ≡ at + glyph_row_size * length places.now) }
{
    let mut x: f32 = 0.0;
    let mut here = at;
    for place in places {
        x = put_glyph_at(out, here, s, *place as usize, x);
        here += GLYPH_ROW_BYTES;
    }
    here
}
