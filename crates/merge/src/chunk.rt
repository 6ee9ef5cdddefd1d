// The merge of a chunk: span by span into one list, whose rows the caller lends.
ghost use Rattle.std.specs.Prelude.{◌≡◌, ◌+◌, ◌≤◌, ◌<◌, length, drop, IfOk};
ghost use Rattle.spec.specs.Job.{limits};
ghost use Rattle.spec.specs.Outcome.{given};
ghost use Rattle.spec.specs.Bytes.{rows as records};
ghost use Rattle.spec.specs.Decode.{glyph_of, glyph_bytes, parts_of};
ghost use Rattle.spec.specs.Merge.{merge_span, merge_glyphs};
ghost use Rattle.job_rows.specs.Rows.{parts_in};
ghost use Rattle.merge.specs.Merged.{glyphs_in, merged_of, merged_into, replaced_places, FewGlyphs, Mergeable};
ghost use Rattle.merge.specs.Buckets.{table, IsFor};
ghost use Rattle.merge.specs.Steps.{SpanReady, SpanMerged, SpanEnded};

use crate::glyph::{GlyphRows, index_at};
use crate::index::{BUCKET, FirstPlaces, build_index};
use crate::moves::list_rows;
use crate::progress::{Marks, Progress};
use crate::step::merge_glyph;
use job_rows::rows::span_at;
use job_rows::sizes::{GLYPH_COUNT_BYTES, glyph_count, glyphs_at};
use spec::{Job, Refusal, Span};
use wire::slice::{clamp, tail};

// The entries of a table of first places for the longest text.
const BUCKETS: usize = Job::TEXT / BUCKET;

// A span of so few glyphs, or one that meets a list of so few, is merged without a table: to fill one would take longer than the walks.
const FEW: usize = 16;

// The span's own glyphs are merged into a list that is not empty. A place that is replaced gets the span's stamp as its
// mark. The stamps that earlier spans left are less, so that they need not be cleared.
// A glyph that takes the place of another has its byte index, so the table of first places stays right while the count does not change.
fn merge_glyphs(
    s: &[u8],
    span: Span,
    rows: &mut [u32; Job::MERGED],
    marks: &mut Marks,
    buckets: &mut [u16],
    count: usize,
    own: GlyphRows,
) -> Result<usize, Refusal>
    requires { SpanReady marks.old count × IsFor (table buckets.old 0) (glyphs_in s.now rows.old count) }
    ensures { SpanEnded result s.now rows.new marks.old marks.new
        (merged_into (glyphs_in s.now rows.old count) span s.now own.first own.count) }
{
    let mut at = Progress::of_list(count);
    let mut table = FirstPlaces { buckets, slack: 0 };
    for k in 0..own.count {
        let row = own.row(k);
        let next = merge_glyph(s, span, rows, marks, &table, at, row)?;
        table.follow_step(at.count, next.count, index_at(s, row), at.next);
        table.renew(s, rows, next.count);
        at = next;
    }
    Ok(at.count)
}

// The same where a table of first places pays: it is made here, and is for this span only.
fn merge_many(
    s: &[u8],
    span: Span,
    rows: &mut [u32; Job::MERGED],
    marks: &mut Marks,
    count: usize,
    own: GlyphRows,
) -> Result<usize, Refusal>
    requires { SpanReady marks.old count }
    ensures { SpanEnded result s.now rows.new marks.old marks.new
        (merged_into (glyphs_in s.now rows.old count) span s.now own.first own.count) }
{
    let mut buckets = [0u16; BUCKETS];
    build_index(s, rows, count, &mut buckets);
    merge_glyphs(s, span, rows, marks, &mut buckets, count, own)
}

// The glyph rows of the span at `at`. That the record is so short and its glyphs so few is asked here and of two callers, which take different values
// beside them.
fn glyph_rows(s: &[u8], at: usize) -> GlyphRows
    requires { (length s.now ≤ 1_048_576) × FewGlyphs (parts_of (drop at s.now)) }
    ensures { records (λ b. glyph_bytes) glyph_of result.count (drop result.first s.now) ≡ (parts_of (drop at s.now)).glyphs }
{
    let span = tail(s, at);
    let first = (clamp(s, at) + glyphs_at(span) + GLYPH_COUNT_BYTES) as u32;
    GlyphRows {
        first,
        count: glyph_count(span),
    }
}

// The list is the glyphs of the span at `at`, for which there is room; the result is how many they are.
pub fn list_span(s: &[u8], at: usize, rows: &mut [u32]) -> usize
    requires { (length s.now ≤ 1_048_576) × FewGlyphs (parts_of (drop at s.now))
        × (length (parts_of (drop at s.now)).glyphs ≤ length rows.old) }
    ensures { (length rows.new ≡ length rows.old) × (result ≡ length (parts_of (drop at s.now)).glyphs)
        × (glyphs_in s.now rows.new result ≡ (parts_of (drop at s.now)).glyphs) }
{
    let own = glyph_rows(s, at);
    list_rows(rows, own);
    own.count
}

// The next span, which stands at `at`. While the list is empty, the span's whole glyph list becomes it.
pub fn merge_span(
    s: &[u8],
    at: usize,
    rows: &mut [u32; Job::MERGED],
    marks: &mut Marks,
    count: usize,
) -> Result<usize, Refusal>
    requires { (length s.now ≤ 1_048_576) × FewGlyphs (parts_of (drop at s.now)) × SpanReady marks.old count }
    ensures { SpanMerged result s.now rows.new marks.old marks.new
        (replaced_places (glyphs_in s.now rows.old count) (parts_of (drop at s.now)))
        (merge_span (given (glyphs_in s.now rows.old count)) (parts_of (drop at s.now))) }
{
    let own = glyph_rows(s, at);
    if count == 0 {
        return Ok(list_span(s, at, rows));
    }
    let span = span_at(s, at);
    if (own.count <= FEW) | (count <= FEW) {
        // A table with no entry: each search begins at the start.
        let mut none = [0u16; 1];
        return merge_glyphs(s, span, rows, marks, &mut none[..0], count, own);
    }
    merge_many(s, span, rows, marks, count, own)
}

// The glyphs of the spans that stand at the places `spans`, merged span by span into one list: its rows are the first of `rows`. The marks are
// cleared once; a span's stamp is its number, from 1 on.
pub fn process_chunk(
    s: &[u8],
    spans: &[usize],
    rows: &mut [u32; Job::MERGED],
) -> Result<usize, Refusal>
    requires { Mergeable s.now spans.now }
    ensures { IfOk result (λ n. n ≤ limits.merged)
        × (merged_of result s.now rows.new ≡ merge_glyphs (parts_in s.now spans.now)) }
{
    let mut marks = Marks {
        stamps: [0; Job::MERGED],
        stamp: 0,
    };
    let mut count: usize = 0;
    for at in spans {
        marks.stamp += 1;
        count = merge_span(s, *at, rows, &mut marks, count)?;
    }
    Ok(count)
}
