// Which clusters of a list are marked.
ghost use Rattle.std.specs.Prelude.{◌≤◌, length};

use crate::range::Range;

// A mark for each cluster, 1 or 0, and the range in which they count. They are numbers and no `bool`: what is lent for them holds other numbers too.
#[derive(Clone, Copy)]
pub struct Marked<'a> {
    pub marks: &'a [u32],
    pub within: Range,
    pub ghost inside: { within.to ≤ length marks.now },
}
