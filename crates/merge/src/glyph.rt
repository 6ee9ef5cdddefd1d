// The fields of a glyph row that the merge goes by, read at the row's place in the record.
ghost use Rattle.std.specs.Prelude.{◌≡◌, ◌+◌, ◌*◌, ◌≤◌, ◌<◌, drop};
ghost use Rattle.spec.specs.Decode.{glyph_of};
ghost use Rattle.spec.specs.Job.{limits};

use job_rows::rows::glyph_index_at;
use job_rows::sizes::{GLYPH_BYTES, GLYPH_LENGTH_AT};
use wire::read::u8_at;

// How far it is from one glyph row to the next.
pub const GLYPH_STEP: u32 = GLYPH_BYTES as u32;

// The glyph's byte index.
pub fn index_at(s: &[u8], row: u32) -> u16
    ensures { result ≡ (glyph_of (drop row s.now)).index }
{
    glyph_index_at(s, row as usize)
}

// Its cluster length.
pub fn length_at(s: &[u8], row: u32) -> usize
    ensures { (result ≡ (glyph_of (drop row s.now)).length) × (result < 256) }
{
    u8_at(s, row as usize + GLYPH_LENGTH_AT) as usize
}

// The glyph rows of a span: the place of the first, and how many there are.
#[derive(Clone, Copy)]
pub struct GlyphRows {
    pub first: u32,
    pub count: usize,
    ghost few: { (first ≤ 2_000_000) × (count ≤ limits.glyphs) },
}

impl GlyphRows {
    // The place of row `k`.
    pub fn row(self, k: usize) -> u32
        requires { k < self.count }
        ensures { result ≡ self.first + k * 25 }
    {
        self.first + k as u32 * GLYPH_STEP
    }
}
