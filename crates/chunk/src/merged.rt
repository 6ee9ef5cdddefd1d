// A chunk whose glyphs are merged.
ghost use Rattle.chunk.specs.Checked.{MergedChunk};

use crate::progress::NextChunk;

// The record and the chunk in it, and the places of its spans and of its merged glyphs' rows.
#[derive(Clone, Copy)]
pub struct Merged<'a> {
    pub s: &'a [u8],
    pub next: NextChunk,
    pub spans: &'a [usize],
    pub glyphs: &'a [u32],
    ghost merged: { MergedChunk s.now next spans.now glyphs.now },
}
