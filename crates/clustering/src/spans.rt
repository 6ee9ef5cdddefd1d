// Which span covers a byte index.
ghost use Rattle.std.specs.Prelude.{◌≡◌, ◌<◌, length, drop, MatchOption};
ghost use Rattle.spec.specs.Decode.{span_of};
ghost use Rattle.spec.specs.Merge.{span_contains};
ghost use Rattle.spec.specs.Group.{chunk_span_at};
ghost use Rattle.job_rows.specs.Rows.{spans_in};

use job_rows::rows::span_at;

// The span whose record stands at `at` covers the byte at `index`. Here `index` may be any number, and `span_contains` of `spec` takes 32 bits.
pub fn span_contains_at(s: &[u8], at: usize, index: usize) -> bool
    ensures { result ≡ span_contains (span_of (drop at s.now)) index }
{
    let span = span_at(s, at);
    (usize::from(span.start)..usize::from(span.end)).contains(&index)
}

// The place of the first span that covers `index`, if one does.
pub fn chunk_span_at(s: &[u8], spans: &[usize], index: usize) -> Option<usize>
    ensures { MatchOption result (chunk_span_at (spans_in s.now spans.now) index ≡ length spans.now)
        (λ k. (k ≡ chunk_span_at (spans_in s.now spans.now) index) × (k < length spans.now)) }
{
    spans.iter().position(|at| span_contains_at(s, *at, index))
}
