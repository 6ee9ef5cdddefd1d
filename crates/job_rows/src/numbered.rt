// The rows of a checked job by their numbers: a font by its byte, a span by its place in the chunk, a float of a list by its place there.
// Each reader is total: past the end it gives what the definitions give there.
ghost use Rattle.std.specs.Prelude.{◌≡◌, length, get_or};
ghost use Rattle.spec.specs.Single.{+0};
ghost use Rattle.spec.specs.Job.{blank_font, font_at, blank_span, span_at};
ghost use Rattle.spec.specs.Decode.{list_of};
ghost use Rattle.job_rows.specs.Rows.{fonts_in, spans_in, span_places};

use crate::rows::{font_at, span_at, span_float};
use crate::sizes::{FLOAT_SIZE, FONT_BYTES, LIST_COUNT_BYTES, SPAN_SIZE_AT, span_size};
use spec::{Font, Span};
use wire::read::{f32_at, u16_at};
use wire::slice::{offset_after, tail};

// Where the first font row stands: behind length, version, writing mode and font count.
pub const FIRST_FONT: usize = 7;

fn blank_font() -> Font
    ensures { result ≡ blank_font }
{
    Font {
        units: 1,
        ascent: 0,
        descent: 0,
        xheight: 1,
        underline: 0,
        thickness: 1,
        through: 0,
        subscript: 0,
        superscript: 0,
    }
}

// The font of a font byte, in a job of `fonts` fonts.
pub fn font_in(s: &[u8], fonts: usize, b: u8) -> Font
    ensures { result ≡ font_at (fonts_in s.now fonts) b }
{
    let k = b as usize;
    if k < fonts {
        return font_at(s, FIRST_FONT + k * FONT_BYTES);
    }
    blank_font()
}

// The units per em of the font of a font byte: of its row only they are read, which stand first.
pub fn units_in(s: &[u8], fonts: usize, b: u8) -> u16
    ensures { result ≡ (font_at (fonts_in s.now fonts) b).units }
{
    let k = b as usize;
    if fonts <= k {
        return 1;
    }
    u16_at(s, FIRST_FONT + k * FONT_BYTES)
}

fn blank_span() -> Span
    ensures { result ≡ blank_span }
{
    Span {
        start: 0,
        end: 0,
        font: Span::NO_FONT,
        size: 0.0,
        letter: 0.0,
        word: 0.0,
        fixed: 0,
        length: 0.0,
        adjust: 0,
        dominant: 0,
        alignment: 0,
        decorations: 0,
    }
}

// The span of place `k` in the chunk.
pub fn span_in(s: &[u8], places: &[usize], k: usize) -> Span
    ensures { result ≡ span_at (spans_in s.now places.now) k }
{
    match places.get(k) {
        Some(&at) => span_at(s, at),
        None => blank_span(),
    }
}

// The font size of the span of place `k` in the chunk: only that float of the row is read.
pub fn size_in(s: &[u8], places: &[usize], k: usize) -> f32
    ensures { result ≡ (span_at (spans_in s.now places.now) k).size }
{
    match places.get(k) {
        Some(&at) => span_float(tail(s, at), SPAN_SIZE_AT),
        None => 0.0,
    }
}

// The float of place `i` in a list, given the bytes from its count on.
pub fn float_in(list: &[u8], i: usize) -> f32
    ensures { result ≡ get_or (list_of list.now) i +0 }
{
    let n = u16_at(list, 0) as usize;
    if i < n {
        return f32_at(list, LIST_COUNT_BYTES + i * FLOAT_SIZE);
    }
    0.0
}

// The places of the spans that stand one after the other from `at` on, as many as there is room for.
pub fn span_places(s: &[u8], at: usize, places: &mut [usize])
    ensures { places.new ≡ span_places s.now at (length places.old) }
{
    let mut p = at;
    for place in places.iter_mut() {
        *place = p;
        p = offset_after(s, p, span_size(tail(s, p)));
    }
}
