// Which clusters begin a decoration run of their own, and which are rotated.
ghost use Rattle.std.specs.Prelude.{◌≡◌, List, ℕ};
ghost use Rattle.spec.specs.Position.{marked_by, mark_relative_shifts};
ghost use Rattle.spec.specs.Arithmetic.{indexes};
ghost use Rattle.spec.specs.Cluster.{rounded};
ghost use Rattle.job_rows.specs.Rows.{job_at};
ghost use Rattle.position.specs.Given.{CharacterNumbersOf, Placeable};

use job_rows::numbered::float_in;
use spec::{Cluster, Job};
use wire::slice::tail;

// A cluster that is rotated has a relative shift too.
fn mark(c: Cluster, before: Cluster, angle: f32) -> Cluster
    ensures { result ≡ marked_by angle before c }
{
    let rotated = angle != 0.0;
    Cluster {
        relative: c.x != before.x || c.y != before.y || rotated,
        rotated,
        angle: if rotated { angle } else { 0.0 },
        ..c
    }
}

// Each cluster beside the one before it in the list, the first beside itself.
pub fn mark_relative_shifts(s: &[u8], job: Job, numbers: &[u32], clusters: &mut [Cluster])
    requires { Placeable numbers.now clusters.old }
    ensures { (indexes rounded clusters.new ≡ indexes rounded clusters.old)
        × ((text : List ℕ) (offset : ℕ) → CharacterNumbersOf text offset numbers.now clusters.old
        → clusters.new ≡ mark_relative_shifts (job_at s.now job) text offset clusters.old) }
{
    let rotate = tail(s, job.rotate);
    let mut before = clusters[0];
    // The numbers go by place: of what a zipped `iter_mut` wrote, a proof knows nothing.
    for (i, c) in clusters.iter_mut().enumerate() {
        let here = *c;
        let angle = float_in(rotate, numbers[i] as usize);
        *c = mark(here, before, angle);
        before = here;
    }
}
