// The row of a span. A span with no font has none.
ghost use Rattle.std.specs.Prelude.{◌≡◌, ℕ, ◌+◌, ◌*◌, ◌≤◌, length, drop};
ghost use mathlib.Core.List.{List, [], ◌∷◌, map, flat_map};
ghost use Rattle.spec.specs.Job as definitions;
ghost use Rattle.spec.specs.Decode.{span_of, parts_of};
ghost use Rattle.spec.specs.declared.Cluster.{Cluster};
ghost use Rattle.spec.specs.declared.Point.{Point};
ghost use Rattle.spec.specs.Answer.{span_row_size, span_row_bytes, span_row_length, sum};
ghost use Rattle.spec.specs.Layout.{span_row, span_rows};
ghost use Rattle.wire.specs.Splice.{splice};
ghost use Rattle.job_rows.specs.Rows.{job_at};
ghost use Rattle.answer_rows.specs.Spans.{row_floats, span_head_bytes, has_row, span_size};

use crate::floats::put_floats;
use answer_format::{RUN_BYTES, RUN_COUNT_AT, RUN_COUNT_BYTES, RUNS_AT, SPAN_FLOATS_AT};
use baseline::offset::{over_offset, thickness, through_offset, under_offset};
use baseline::resolve::resolve_baseline;
use decoration::{collect_decoration_spans, count_runs};
use job_rows::numbered::font_in;
use job_rows::rows::span_at;
use job_rows::sizes::SPAN_FONT_AT;
use spec::{Cluster, Job, Point, Span};
use wire::read::u8_at;
use wire::slice::tail;
use wire::write::{put_number, put_u8};

// ---- a row

// The floats of the row of a span and its record, which stands at `place`; they are the same for any clusters and any index.
fn span_row_floats(s: &[u8], job: Job, place: usize, span: Span, origin: Point) -> [f32; 7]
    requires { span ≡ span_of (drop place s.now) }
    ensures { (cs : List Cluster) (k : ℕ)
        → result ≡ row_floats (span_row (job_at s.now job) origin cs k (parts_of (drop place s.now))) }
{
    let mode = job.mode;
    let font = font_in(s, job.fonts, span.font);
    let shift = resolve_baseline(mode, font, span, s, place);
    let thick = thickness(font, span);
    let under = under_offset(mode, font, span);
    let over = over_offset(mode, font, span);
    let through = through_offset(mode, font, span);
    [origin.x, origin.y, shift, thick, under, over, through]
}

// What comes before the runs of a row: its index, its floats, and how many runs there are.
fn put_span_head(out: &mut [u8], at: usize, k: u8, values: &[f32; 7], runs: usize)
    requires { at + span_row_size 0 ≤ length out.old }
    ensures { out.new ≡ splice out.old at (span_head_bytes k values.now runs) }
{
    let floats_at = at + SPAN_FLOATS_AT;
    let count_at = at + RUN_COUNT_AT;
    put_u8(out, at, k);
    put_floats(out, floats_at, values);
    put_number(out, count_at, RUN_COUNT_BYTES, runs as u64);
}

// The row of the span at `place`, whose index is `k`; the place behind it.
#[tactic(auto, using(crate::proofs::SpanRows::run_count))]
fn put_span_row(
    out: &mut [u8],
    at: usize,
    s: &[u8],
    job: Job,
    place: usize,
    k: u8,
    origin: Point,
    clusters: &[Cluster],
) -> usize
    requires { (length clusters.now ≤ 65_535)
        × (at + span_row_length (span_row (job_at s.now job) origin clusters.now k (parts_of (drop place s.now)))
        ≤ length out.old) }
    ensures { let row = span_row (job_at s.now job) origin clusters.now k
        (parts_of (drop place s.now)) in
        (result ≡ at + span_row_length row) × (out.new ≡ splice out.old at (span_row_bytes row)) }
{
    let span = span_at(s, place);
    let values = span_row_floats(s, job, place, span, origin);
    let runs_at = at + RUNS_AT;
    let runs = collect_decoration_spans(out, runs_at, span, clusters);
    put_span_head(out, at, k, &values, runs);
    runs_at + runs * RUN_BYTES
}

// ---- the rows of one span: a row, or none

pub fn has_row(s: &[u8], place: usize) -> bool
    ensures { result ≡ has_row (parts_of (drop place s.now)) }
{
    u8_at(tail(s, place), SPAN_FONT_AT) != Span::NO_FONT
}

// How many bytes.
#[tactic(auto, unfolding(crate::specs::Spans::span_size))]
pub fn span_length(s: &[u8], place: usize, clusters: &[Cluster]) -> usize
    requires { length clusters.now ≤ 65_535 }
    ensures { (result ≡ span_size clusters.now (parts_of (drop place s.now)))
        × (result ≤ span_row_size (length clusters.now)) }
{
    if has_row(s, place) {
        return RUNS_AT + count_runs(span_at(s, place), clusters) * RUN_BYTES;
    }
    0
}

// They are put, and the place behind them is given; `k` is the span's index.
#[tactic(auto, using(crate::proofs::SpanRows::one_sum, crate::proofs::SpanRows::no_sum))]
pub fn put_span(
    out: &mut [u8],
    at: usize,
    s: &[u8],
    job: Job,
    place: usize,
    k: u8,
    origin: Point,
    clusters: &[Cluster],
) -> usize
    requires { (length clusters.now ≤ 65_535)
        × (at + sum (map span_row_length (span_rows (job_at s.now job) origin clusters.now k (parts_of (drop place s.now) ∷ [])))
        ≤ length out.old) }
    ensures { let rows = span_rows (job_at s.now job) origin clusters.now k
        (parts_of (drop place s.now) ∷ []) in
        (result ≡ at + sum (map span_row_length rows)) × (out.new ≡ splice out.old at (flat_map span_row_bytes rows)) }
{
    if has_row(s, place) {
        return put_span_row(out, at, s, job, place, k, origin, clusters);
    }
    at
}
