// The rows of a chunk's spans, one after the other. A span without a row counts in the index.
ghost use Rattle.std.specs.Prelude.{◌≡◌, ◌+◌, ◌*◌, ◌≤◌, length};
ghost use mathlib.Core.List.{List, map, flat_map};
ghost use Rattle.spec.specs.Job as definitions;
ghost use Rattle.spec.specs.declared.Cluster.{Cluster};
ghost use Rattle.spec.specs.declared.Point.{Point};
ghost use Rattle.spec.specs.Answer.{span_row_size, span_row_bytes, span_row_length, sum};
ghost use Rattle.spec.specs.Layout.{span_rows};
ghost use Rattle.wire.specs.Splice.{splice};
ghost use Rattle.job_rows.specs.Rows.{parts_in, job_at};

use crate::span::{has_row, put_span, span_length};
use spec::{Cluster, Job, Point};

// How many rows the spans at the places have: in any job, at any origin and with any clusters.
#[tactic(auto, using(crate::proofs::SpanRows::rows_counted))]
pub fn span_row_count(s: &[u8], spans: &[usize]) -> usize
    ensures { (result ≤ length spans.now) × ((job : definitions.Job) (origin : Point) (cs : List Cluster)
        → result ≡ length (span_rows job origin cs 0 (parts_in s.now spans.now))) }
{
    spans.iter().filter(|place| has_row(s, **place)).count()
}

// How many bytes they have: in any job and at any origin.
pub fn span_rows_length(s: &[u8], spans: &[usize], clusters: &[Cluster]) -> usize
    requires { (length clusters.now ≤ 65_535) × (length spans.now ≤ 255) }
    ensures { (result ≤ length spans.now * span_row_size (length clusters.now)) × ((job : definitions.Job) (origin : Point)
        → result ≡ sum (map span_row_length (span_rows job origin clusters.now 0 (parts_in s.now spans.now)))) }
{
    spans
        .iter()
        .map(|place| span_length(s, *place, clusters))
        .sum()
}

// They are put, and the place behind them is given.
pub fn put_span_rows(
    out: &mut [u8],
    at: usize,
    s: &[u8],
    job: Job,
    spans: &[usize],
    origin: Point,
    clusters: &[Cluster],
) -> usize
    requires { (length clusters.now ≤ 65_535) × (length spans.now ≤ 255)
        × (at + sum (map span_row_length (span_rows (job_at s.now job) origin clusters.now 0 (parts_in s.now spans.now)))
        ≤ length out.old) }
    ensures { let rows = span_rows (job_at s.now job) origin clusters.now 0
        (parts_in s.now spans.now) in
        (result ≡ at + sum (map span_row_length rows)) × (out.new ≡ splice out.old at (flat_map span_row_bytes rows)) }
{
    let mut here = at;
    for (k, place) in spans.iter().enumerate() {
        here = put_span(out, here, s, job, *place, k as u8, origin, clusters);
    }
    here
}
