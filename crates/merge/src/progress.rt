// Where the merge stands.
ghost use Rattle.std.specs.Prelude.{◌≡◌, ◌≤◌};
ghost use Rattle.spec.specs.Job.{limits};

use spec::Job;

// The merge of a span: how many glyphs the list has; how many of the next glyphs are still to be inserted unfiltered, with the place for
// the first of them.
#[derive(Clone, Copy)]
pub struct Progress {
    pub count: usize,
    pub owed: usize,
    pub next: usize,
    ghost fits: { (count ≤ limits.merged) × (next ≤ count) },
}

impl Progress {
    // A list of `count` glyphs, and none is to be inserted.
    pub fn of_list(count: usize) -> Progress
        requires { count ≤ limits.merged }
        ensures { (result.count ≡ count) × (result.owed ≡ 0) × (result.next ≡ 0) }
    {
        Progress {
            count,
            owed: 0,
            next: 0,
        }
    }
}

// The marks of a chunk: each place of the list has the stamp of the last span that replaced it, or 0, and `stamp` is that of the present span.
#[derive(Drop)]
pub struct Marks {
    pub stamps: [u8; Job::MERGED],
    pub stamp: u8,
}
