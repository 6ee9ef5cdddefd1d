// Step 4: letter spacing.
ghost use Rattle.std.specs.Prelude.{◌≡◌, List};
ghost use Rattle.spec.specs.declared.Span.{Span};
ghost use Rattle.spec.specs.Job.{span_at};
ghost use Rattle.spec.specs.Cluster.{rounded};
ghost use Rattle.spec.specs.LetterSpacing.{collapse_if_empty, letter_spaced, next_letter_spaced, apply_letter_spacing};
ghost use Rattle.job_rows.specs.Rows.{spans_in};

use crate::spans::{Spacing, any_spacing, spacing_in};
use spec::{Cluster, script_supports_letter_spacing};

// A cluster whose advance is not above 0 loses its width, its advance and its glyphs.
#[tactic(auto, unfolding(spec::specs::LetterSpacing::collapse_if_empty))]
pub fn collapse_if_empty(c: &mut Cluster)
    ensures { c.new ≡ collapse_if_empty rounded c.old }
{
    if 0.0 < c.advance {
        return;
    }
    c.width = 0.0;
    c.advance = 0.0;
    c.count = 0;
    c.collapsed = true;
}

// The cluster gets its spacing, but not the last one.
#[tactic(auto, unfolding(spec::specs::LetterSpacing::letter_spaced))]
pub fn letter_spaced(letter: f32, last: bool, c: &mut Cluster)
    ensures { c.new ≡ letter_spaced rounded letter last c.old }
{
    if !last {
        c.advance += letter;
    }
    collapse_if_empty(c);
}

// The letter spacing of the span of place `span`. Neighbours nearly always have one span, so that it is kept.
#[derive(Clone, Copy)]
struct Kept {
    span: u32,
    letter: f32,
}

// Of the span of place `k`.
fn letter_in(s: &[u8], spans: &[usize], k: u32) -> Kept
    ensures { (result.span ≡ k) × (result.letter ≡ (span_at (spans_in s.now spans.now) k).letter) }
{
    Kept {
        span: k,
        letter: spacing_in(s, spans, k, Spacing::Letter),
    }
}

// The same, taken from `last` if that is of this span.
fn next_letter(s: &[u8], spans: &[usize], k: u32, last: Kept) -> Kept
    requires { last.letter ≡ (span_at (spans_in s.now spans.now) last.span).letter }
    ensures { (result.span ≡ k) × (result.letter ≡ (span_at (spans_in s.now spans.now) k).letter) }
{
    if last.span == k {
        return last;
    }
    letter_in(s, spans, k)
}

// The next cluster, of which `left` are still to come, itself counted. Its span's letter spacing is given.
#[tactic(auto, unfolding(spec::specs::LetterSpacing::next_letter_spaced))]
fn next_letter_spaced(letter: f32, left: usize, c: &mut Cluster)
    ensures { (spans : List Span) → letter ≡ (span_at spans c.old.span).letter → c.new ≡ next_letter_spaced rounded spans left c.old }
{
    if script_supports_letter_spacing(c.tag) {
        letter_spaced(letter, left == 1, c);
    }
}

#[tactic(auto, unfolding(spec::specs::LetterSpacing::apply_letter_spacing))]
pub fn apply_letter_spacing(s: &[u8], spans: &[usize], clusters: &mut [Cluster])
    ensures { clusters.new ≡ apply_letter_spacing rounded (spans_in s.now spans.now) clusters.old }
{
    if !any_spacing(s, spans, Spacing::Letter) {
        return;
    }
    let mut kept = letter_in(s, spans, 0);
    let n = clusters.len();
    for (i, c) in clusters.iter_mut().enumerate() {
        kept = next_letter(s, spans, c.span, kept);
        next_letter_spaced(kept.letter, n - i, c);
    }
}
