// The shifts that the clusters take from dx and dy.
ghost use Rattle.std.specs.Prelude.{◌≡◌, List, ℕ, ◌≤◌, length};
ghost use Rattle.spec.specs.Position.{resolve_relative_shifts, rotate_shifts};
ghost use Rattle.spec.specs.Arithmetic.{indexes};
ghost use Rattle.spec.specs.Cluster.{rounded};
ghost use Rattle.job_rows.specs.Rows.{job_at};
ghost use Rattle.text_order.specs.Ordered.{Ordered};
ghost use Rattle.position.specs.Given.{CharacterNumbersOf};

use job_rows::numbered::float_in;
use spec::{Cluster, Job};
use text_order::place_of;
use wire::slice::tail;

// The job's dx and dy shift a character and all that follow it in text order. `order` and `numbers` are lists of
// places, since memory is fixed: the clusters stay where they are.
pub fn resolve_relative_shifts(
    s: &[u8],
    job: Job,
    order: &[u32],
    numbers: &[u32],
    clusters: &mut [Cluster],
)
    requires { (length clusters.old ≤ length numbers.now) × Ordered order.now clusters.old }
    ensures { (indexes rounded clusters.new ≡ indexes rounded clusters.old)
        × ((text : List ℕ) (offset : ℕ) → CharacterNumbersOf text offset numbers.now clusters.old
        → clusters.new ≡ resolve_relative_shifts rounded (job_at s.now job) text offset clusters.old) }
{
    let dx = tail(s, job.dx);
    let dy = tail(s, job.dy);
    let mut x: f32 = 0.0;
    let mut y: f32 = 0.0;
    for key in &order[..clusters.len()] {
        let place = place_of(*key);
        let number = numbers[place] as usize;
        x += float_in(dx, number);
        y += float_in(dy, number);
        let c = &mut clusters[place];
        c.x = x;
        c.y = y;
    }
}

// Top to bottom, the text is laid out left to right and turned by 90 degrees afterwards. `mode` stays a number: the definition speaks of the job's.
pub fn rotate_shifts(mode: u8, clusters: &mut [Cluster])
    ensures { clusters.new ≡ rotate_shifts rounded mode clusters.old }
{
    if mode == Job::TOP_TO_BOTTOM {
        for c in clusters.iter_mut() {
            (c.x, c.y) = (c.y, -c.x);
        }
    }
}
