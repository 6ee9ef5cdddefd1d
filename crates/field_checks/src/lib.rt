// The values that the fields of a row may have.
#![tactic(auto)]

use spec::{Font, Glyph, Span};
use wire::write::bits_of;

pub mod utf8;

ghost use Rattle.std.specs.Prelude.{◌≡◌};
ghost use Rattle.spec.specs.Check.{float_ok, flagged_ok, size_ok, units_ok, font_ok, glyph_ok, shift_ok, span_ok};

// 2^-20 and 2^20, between which the size of a float lies that is not zero.
pub const SMALLEST: f32 = 0.00000095367431640625;

pub const LARGEST: f32 = 1048576.0;

// The bounds of a font size.
pub const SMALLEST_SIZE: f32 = 0.0625;

pub const LARGEST_SIZE: f32 = 4096.0;

#[tactic(auto, unfolding(spec::specs::Check::float_ok))]
pub fn float_ok(x: f32) -> bool
    ensures { result ≡ float_ok x }
{
    (x == 0.0) | (((SMALLEST <= x) & (x <= LARGEST)) | ((-LARGEST <= x) & (x <= -SMALLEST)))
}

// A value that is there by a flag, and four zero bytes where the flag is clear.
#[tactic(auto, unfolding(spec::specs::Check::flagged_ok, spec::specs::Single::is_zero_bits))]
pub fn flagged_ok(here: bool, x: f32) -> bool
    ensures { result ≡ flagged_ok here x }
{
    if here { float_ok(x) } else { bits_of(x) == 0 }
}

#[tactic(auto, unfolding(spec::specs::Check::size_ok))]
pub fn size_ok(x: f32) -> bool
    ensures { result ≡ size_ok x }
{
    (SMALLEST_SIZE <= x) & (x <= LARGEST_SIZE)
}

pub fn units_ok(n: i32) -> bool
    ensures { result ≡ units_ok n }
{
    n.unsigned_abs() <= 65_535
}

#[tactic(auto, unfolding(spec::specs::Check::font_ok, spec::specs::Lists::every))]
pub fn font_ok(f: Font) -> bool
    ensures { result ≡ font_ok f }
{
    (0 < f.units) & (0 < f.xheight) & (0 < f.thickness)
}

#[tactic(auto, unfolding(spec::specs::Check::glyph_ok, spec::specs::Lists::every))]
pub fn glyph_ok(fonts: usize, g: Glyph) -> bool
    ensures { result ≡ glyph_ok fonts g }
{
    (1 <= g.length)
        & (g.length <= 64)
        & units_ok(g.dx)
        & units_ok(g.dy)
        & units_ok(g.width)
        & ((g.font as usize) < fonts)
        & (g.orientation <= 1)
}

#[tactic(auto, unfolding(spec::specs::Check::shift_ok, spec::specs::Lists::every))]
pub fn shift_ok(kind: u8, number: f32) -> bool
    ensures { result ≡ shift_ok (record { kind = kind; number = number }) }
{
    (kind <= 3) & flagged_ok(kind == 3, number)
}

#[tactic(auto, unfolding(spec::specs::Check::span_ok, spec::specs::Lists::every))]
pub fn span_ok(fonts: usize, s: Span) -> bool
    ensures { result ≡ span_ok fonts s }
{
    (((s.font as usize) < fonts) | (s.font == Span::NO_FONT))
        & size_ok(s.size)
        & float_ok(s.letter)
        & float_ok(s.word)
        & (s.fixed <= 1)
        & flagged_ok(s.fixed == 1, s.length)
        & (s.adjust <= 2)
        & (s.dominant <= 11)
        & (s.alignment <= 11)
        & (s.decorations <= 7)
}
