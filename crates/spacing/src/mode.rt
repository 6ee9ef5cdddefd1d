// Step 3: top to bottom, clusters are turned.
ghost use Rattle.std.specs.Prelude.{◌≡◌};
ghost use Rattle.spec.specs.WritingMode.{vertical_metrics, apply_writing_mode};

use spec::{Cluster, Job};

// The cluster moved to the middle of the line. Of an upright one ascent and descent become plus and minus half the width.
#[tactic(auto, unfolding(spec::specs::WritingMode::vertical_metrics))]
pub fn vertical_metrics(c: Cluster) -> Cluster
    ensures { result ≡ vertical_metrics c }
{
    let nudge = (c.ascent + c.descent) / 2.0;
    if c.upright {
        return Cluster {
            ascent: c.width / 2.0,
            descent: -c.width / 2.0,
            nudge,
            ..c
        };
    }
    Cluster { nudge, ..c }
}

// `mode` stays a number: the definition speaks of the job's.
#[tactic(auto, unfolding(spec::specs::WritingMode::apply_writing_mode))]
pub fn apply_writing_mode(mode: u8, clusters: &mut [Cluster])
    ensures { clusters.new ≡ apply_writing_mode mode clusters.old }
{
    if mode != Job::TOP_TO_BOTTOM {
        return;
    }
    for c in clusters.iter_mut() {
        *c = vertical_metrics(*c);
    }
}
