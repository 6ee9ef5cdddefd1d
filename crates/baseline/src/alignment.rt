// The baselines that a span can be aligned to.
ghost use Rattle.std.specs.Prelude.{◌≡◌, get_or};
ghost use Rattle.spec.specs.Baseline.{dominant_baselines, alignment_baselines, alignment_of, span_alignment, alignment_baseline_shift};

use font_metrics::{ascent, descent, height, x_height};
use spec::{AlignmentBaseline, DominantBaseline, Font, Span};

// ---- by their numbers

const DOMINANT_BASELINES: [DominantBaseline; 12] = [
    DominantBaseline::Auto,
    DominantBaseline::UseScript,
    DominantBaseline::NoChange,
    DominantBaseline::ResetSize,
    DominantBaseline::Ideographic,
    DominantBaseline::Alphabetic,
    DominantBaseline::Hanging,
    DominantBaseline::Mathematical,
    DominantBaseline::Central,
    DominantBaseline::Middle,
    DominantBaseline::TextAfterEdge,
    DominantBaseline::TextBeforeEdge,
];

const ALIGNMENT_BASELINES: [AlignmentBaseline; 12] = [
    AlignmentBaseline::Auto,
    AlignmentBaseline::Baseline,
    AlignmentBaseline::BeforeEdge,
    AlignmentBaseline::TextBeforeEdge,
    AlignmentBaseline::Middle,
    AlignmentBaseline::Central,
    AlignmentBaseline::AfterEdge,
    AlignmentBaseline::TextAfterEdge,
    AlignmentBaseline::Ideographic,
    AlignmentBaseline::Alphabetic,
    AlignmentBaseline::Hanging,
    AlignmentBaseline::Mathematical,
];

#[tactic(auto, unfolding(spec::specs::Baseline::dominant_baselines))]
pub fn dominant_baseline(b: u8) -> DominantBaseline
    ensures { result ≡ get_or dominant_baselines b DominantBaseline.Auto }
{
    DOMINANT_BASELINES
        .get(usize::from(b))
        .copied()
        .unwrap_or(DominantBaseline::Auto)
}

#[tactic(auto, unfolding(spec::specs::Baseline::alignment_baselines))]
pub fn alignment_baseline(b: u8) -> AlignmentBaseline
    ensures { result ≡ get_or alignment_baselines b AlignmentBaseline.Auto }
{
    ALIGNMENT_BASELINES
        .get(usize::from(b))
        .copied()
        .unwrap_or(AlignmentBaseline::Auto)
}

// ---- the one that counts

// A dominant baseline counts as the alignment of its name, or as Auto. A function and no `From`: the definition has this name.
#[tactic(auto, unfolding(spec::specs::Baseline::alignment_of))]
pub fn alignment_of(baseline: DominantBaseline) -> AlignmentBaseline
    ensures { result ≡ alignment_of baseline }
{
    match baseline {
        DominantBaseline::Auto
        | DominantBaseline::UseScript
        | DominantBaseline::NoChange
        | DominantBaseline::ResetSize => AlignmentBaseline::Auto,
        DominantBaseline::Ideographic => AlignmentBaseline::Ideographic,
        DominantBaseline::Alphabetic => AlignmentBaseline::Alphabetic,
        DominantBaseline::Hanging => AlignmentBaseline::Hanging,
        DominantBaseline::Mathematical => AlignmentBaseline::Mathematical,
        DominantBaseline::Central => AlignmentBaseline::Central,
        DominantBaseline::Middle => AlignmentBaseline::Middle,
        DominantBaseline::TextAfterEdge => AlignmentBaseline::TextAfterEdge,
        DominantBaseline::TextBeforeEdge => AlignmentBaseline::TextBeforeEdge,
    }
}

// A span's alignment; Auto and Baseline, 0 and 1, hand over to its dominant baseline.
#[tactic(auto, unfolding(spec::specs::Baseline::span_alignment))]
pub fn span_alignment(span: Span) -> AlignmentBaseline
    ensures { result ≡ span_alignment span }
{
    if span.alignment <= 1 {
        alignment_of(dominant_baseline(span.dominant))
    } else {
        alignment_baseline(span.alignment)
    }
}

// ---- how far it lies from the alphabetic one

#[tactic(auto, unfolding(spec::specs::Baseline::alignment_baseline_shift))]
pub fn alignment_baseline_shift(font: Font, size: f32, alignment: AlignmentBaseline) -> f32
    ensures { result ≡ alignment_baseline_shift font size alignment }
{
    match alignment {
        AlignmentBaseline::Auto | AlignmentBaseline::Baseline | AlignmentBaseline::Alphabetic => {
            0.0
        }
        AlignmentBaseline::BeforeEdge | AlignmentBaseline::TextBeforeEdge => ascent(font, size),
        AlignmentBaseline::Middle => x_height(font, size) * 0.5,
        AlignmentBaseline::Central => ascent(font, size) - height(font, size) * 0.5,
        AlignmentBaseline::AfterEdge
        | AlignmentBaseline::TextAfterEdge
        | AlignmentBaseline::Ideographic => descent(font, size),
        AlignmentBaseline::Hanging => ascent(font, size) * 0.8,
        AlignmentBaseline::Mathematical => ascent(font, size) * 0.5,
    }
}
