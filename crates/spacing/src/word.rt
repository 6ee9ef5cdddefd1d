// Step 5: word spacing, after the characters that separate words.
ghost use Rattle.std.specs.Prelude.{◌≡◌};
ghost use Rattle.spec.specs.Cluster.{rounded};
ghost use Rattle.spec.specs.WordSpacing.{word_spaced, apply_word_spacing};
ghost use Rattle.job_rows.specs.Rows.{spans_in};

use crate::character::is_word_separator_at;
use crate::spans::{Spacing, any_spacing, spacing_in};
use spec::Cluster;

// The cluster gets its spacing, if its character separates words.
#[tactic(auto, unfolding(spec::specs::WordSpacing::word_spaced))]
fn word_spaced(s: &[u8], text: &[u8], spans: &[usize], c: &mut Cluster)
    ensures { c.new ≡ word_spaced rounded text.now (spans_in s.now spans.now) c.old }
{
    if is_word_separator_at(text, c.index as usize) {
        c.advance += spacing_in(s, spans, c.span, Spacing::Word);
    }
}

#[tactic(auto, unfolding(spec::specs::WordSpacing::apply_word_spacing))]
pub fn apply_word_spacing(s: &[u8], text: &[u8], spans: &[usize], clusters: &mut [Cluster])
    ensures { clusters.new ≡ apply_word_spacing rounded text.now (spans_in s.now spans.now) clusters.old }
{
    if !any_spacing(s, spans, Spacing::Word) {
        return;
    }
    for c in clusters.iter_mut() {
        word_spaced(s, text, spans, c);
    }
}
