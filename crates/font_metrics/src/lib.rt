// Font units at a font size: the measures of the Rust's `ResolvedFont`, under its names.
#![tactic(auto)]

ghost use Rattle.std.specs.Prelude.{◌≡◌, ◌≤◌, pos, nat_abs};
ghost use Rattle.std.specs.Float.{binary32};
ghost use Rattle.std.specs.Float.Ieee.{of_int};
ghost use Rattle.spec.specs.Single.{◌*ᶠ◌, ◌/ᶠ◌, of_nat};
ghost use Rattle.spec.specs.Arithmetic.{measure};
ghost use Rattle.spec.specs.Cluster.{rounded};
ghost use Rattle.spec.specs.Baseline.{ascent_of, descent_of, height_of, x_height_of};

use spec::Font;

// Of a font, only its units per em count.
pub fn scale(units: u16, size: f32) -> f32
    ensures { result ≡ size /ᶠ of_nat units }
{
    size / f32::from(units)
}

// ---- `z` font units

// For a glyph's width, which is within these bounds in a checked job: a cast is taken only of a whole number that is a float.
// `by` is a scale.
pub fn measure_at(by: f32, z: i32) -> f32
    requires { nat_abs z ≤ 65_535 }
    ensures { result ≡ of_int binary32 z *ᶠ by }
{
    z as f32 * by
}

// This is `measure` for every font of these units per em.
pub fn measure_units(units: u16, size: f32, z: i32) -> f32
    requires { nat_abs z ≤ 65_535 }
    ensures { result ≡ of_int binary32 z *ᶠ (size /ᶠ of_nat units) }
{
    measure_at(scale(units, size), z)
}

// ---- the measures of a font row

// Every field of a row is within the bounds, signed or not.
fn measure(font: Font, size: f32, z: i32) -> f32
    requires { nat_abs z ≤ 65_535 }
    ensures { result ≡ measure rounded font size z }
{
    measure_units(font.units, size, z)
}

pub fn ascent(font: Font, size: f32) -> f32
    ensures { result ≡ ascent_of font size }
{
    measure(font, size, i32::from(font.ascent))
}

pub fn descent(font: Font, size: f32) -> f32
    ensures { result ≡ descent_of font size }
{
    measure(font, size, i32::from(font.descent))
}

pub fn height(font: Font, size: f32) -> f32
    ensures { result ≡ height_of font size }
{
    ascent(font, size) - descent(font, size)
}

pub fn x_height(font: Font, size: f32) -> f32
    ensures { result ≡ x_height_of font size }
{
    measure(font, size, i32::from(font.xheight))
}

pub fn underline_position(font: Font, size: f32) -> f32
    ensures { result ≡ measure rounded font size font.underline }
{
    measure(font, size, i32::from(font.underline))
}

pub fn underline_thickness(font: Font, size: f32) -> f32
    ensures { result ≡ measure rounded font size (pos font.thickness) }
{
    measure(font, size, i32::from(font.thickness))
}

pub fn line_through_position(font: Font, size: f32) -> f32
    ensures { result ≡ measure rounded font size font.through }
{
    measure(font, size, i32::from(font.through))
}

pub fn subscript_offset(font: Font, size: f32) -> f32
    ensures { result ≡ measure rounded font size font.subscript }
{
    measure(font, size, i32::from(font.subscript))
}

pub fn superscript_offset(font: Font, size: f32) -> f32
    ensures { result ≡ measure rounded font size font.superscript }
{
    measure(font, size, i32::from(font.superscript))
}
