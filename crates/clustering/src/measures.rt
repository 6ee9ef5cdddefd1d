// What a cluster has of its span and of its first glyph's font. Neighbours nearly always have both in common, so that it is kept.
ghost use Rattle.std.specs.Prelude.{◌≡◌};
ghost use Rattle.clustering.specs.Kept.{measures_in, Serves};

use font_metrics::{ascent, descent, scale};
use job_rows::numbered::{font_in, size_in};

// Of the span of place `span` and the font of byte `font`; the scale is the size divided by the font's units per em.
#[derive(Clone, Copy)]
pub struct Measures {
    pub span: usize,
    pub font: u8,
    pub size: f32,
    pub scale: f32,
    pub ascent: f32,
    pub descent: f32,
}

// Of the span of place `k` and the font of byte `b`. Inlined: what a call returns stands in memory, and each cluster would copy it.
#[inline(always)]
pub fn measures_of(s: &[u8], fonts: usize, spans: &[usize], k: usize, b: u8) -> Measures
    ensures { result ≡ measures_in s.now fonts spans.now k b }
{
    let size = size_in(s, spans, k);
    let font = font_in(s, fonts, b);
    Measures {
        span: k,
        font: b,
        size,
        scale: scale(font.units, size),
        ascent: ascent(font, size),
        descent: descent(font, size),
    }
}

// The same, taken from `last` if there are such, of this span and font.
pub fn next_measures(
    s: &[u8],
    fonts: usize,
    spans: &[usize],
    k: usize,
    b: u8,
    last: Option<Measures>,
) -> Measures
    requires { Serves s.now fonts spans.now k b last }
    ensures { result ≡ measures_in s.now fonts spans.now k b }
{
    if let Some(m) = last {
        if m.span == k && m.font == b {
            return m;
        }
    }
    measures_of(s, fonts, spans, k, b)
}
