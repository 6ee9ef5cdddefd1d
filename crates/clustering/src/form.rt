// One cluster, of the merged glyphs from one place to another.
ghost use Rattle.std.specs.Prelude.{◌≡◌, true, List, ◌<◌, ◌≤◌, drop};
ghost use Rattle.spec.specs.declared.Span.{Span};
ghost use Rattle.spec.specs.Job.{font_at, span_at};
ghost use Rattle.spec.specs.Check.{units_ok};
ghost use Rattle.spec.specs.Decode.{glyph_of};
ghost use Rattle.spec.specs.Single.{◌+ᶠ◌};
ghost use Rattle.spec.specs.Arithmetic.{greatest, glyph_advance, sum_advance, max_advance};
ghost use Rattle.spec.specs.Cluster.{rounded, form_glyph_clusters};
ghost use Rattle.job_rows.specs.Rows.{fonts_in};
ghost use Rattle.clustering.specs.Groups.{glyph_in, glyphs_from, group_in, Measurable};
ghost use Rattle.clustering.specs.Kept.{measures_at};

use crate::measures::Measures;
use font_metrics::{measure_at, measure_units};
use job_rows::numbered::units_in;
use job_rows::sizes::{GLYPH_FONT_AT, GLYPH_WIDTH_AT};
use spec::{Cluster, Glyph};
use wire::read::{i32_at, u8_at};

// The advance of the glyph whose row stands at `at`, of its own font.
#[tactic(auto, unfolding(spec::specs::Decode::glyph_of))]
pub fn glyph_advance(s: &[u8], fonts: usize, at: usize, size: f32) -> f32
    requires { units_ok (glyph_of (drop at s.now)).width ≡ true }
    ensures { result ≡ glyph_advance rounded (fonts_in s.now fonts) size (glyph_of (drop at s.now)) }
{
    let row = wire::slice::tail(s, at);
    let units = units_in(s, fonts, u8_at(row, GLYPH_FONT_AT));
    measure_units(units, size, i32_at(row, GLYPH_WIDTH_AT))
}

// The largest of some glyphs' advances, at least 0, and their sum.
#[derive(Clone, Copy)]
struct Advances {
    width: f32,
    advance: f32,
}

// With one glyph more, whose advance is `own`. Not `f32::max`: the definition says which of two zeros stays, and what a NaN does.
fn with_glyph(a: Advances, own: f32) -> Advances
    ensures { (result.width ≡ greatest rounded a.width own) × (result.advance ≡ a.advance +ᶠ own) }
{
    let width = if own > a.width { own } else { a.width };
    Advances {
        width,
        advance: a.advance + own,
    }
}

// Of the glyphs from place `from` to `end`. The first one's advance is given: its row is read already.
fn glyph_advances(
    s: &[u8],
    fonts: usize,
    merged: &[u32],
    from: usize,
    end: usize,
    size: f32,
    first: f32,
) -> Advances
    requires { Measurable s.now merged.now from end × (first ≡ glyph_advance rounded (fonts_in s.now fonts) size (glyph_in s.now merged.now from)) }
    ensures { (result.width ≡ max_advance rounded (fonts_in s.now fonts) size (glyphs_from s.now merged.now from end))
        × (result.advance ≡ sum_advance rounded (fonts_in s.now fonts) size (glyphs_from s.now merged.now from end)) }
{
    let none = Advances {
        width: 0.0,
        advance: 0.0,
    };
    let mut all = with_glyph(none, first);
    for at in &merged[from + 1..end] {
        all = with_glyph(all, glyph_advance(s, fonts, *at as usize, size));
    }
    all
}

// The cluster of the glyphs from place `from` to `end`. The first of them is given, and the measures of its font and of the span that covers
// them. The record, its fonts and the merged list go by parameters and no struct: each function of this crate takes another part of them.
pub fn form_glyph_clusters(
    s: &[u8],
    fonts: usize,
    merged: &[u32],
    from: usize,
    end: usize,
    first: Glyph,
    m: Measures,
) -> Cluster
    requires { Measurable s.now merged.now from end × (end ≤ 1_024) × (m.span < 256) × (first ≡ glyph_in s.now merged.now from)
        × (m ≡ measures_at (font_at (fonts_in s.now fonts) first.font) m.size m.span first.font) }
    ensures { ((spans : List Span) → m.size ≡ (span_at spans m.span).size
        → result ≡ form_glyph_clusters (fonts_in s.now fonts) spans (group_in s.now merged.now from end m.span)) × (result.index < 65_536) }
{
    let own = measure_at(m.scale, first.width);
    let advances = glyph_advances(s, fonts, merged, from, end, m.size, own);
    Cluster {
        index: first.index as u32,
        tag: first.tag,
        upright: first.orientation == 1,
        span: m.span as u32,
        from: from as u32,
        count: (end - from) as u32,
        width: advances.width,
        advance: advances.advance,
        ascent: m.ascent,
        descent: m.descent,
        ..Cluster::BLANK
    }
}
