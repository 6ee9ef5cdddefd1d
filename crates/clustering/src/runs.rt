// Runs of neighbours of one byte index in a merged list (the Rust's `GlyphClusters`).
ghost use Rattle.std.specs.Prelude.{◌≡◌, not, eqb, [], ◌+◌, ◌<◌, ◌≤◌, length, get_or, drop};
ghost use Rattle.spec.specs.Lists.{find_idx};
ghost use Rattle.spec.specs.declared.Glyph.{Glyph};
ghost use Rattle.spec.specs.Group.{glyph_runs};
ghost use Rattle.job_rows.specs.Rows.{glyphs_at};
ghost use Rattle.clustering.specs.Groups.{glyph_in};

use job_rows::rows::glyph_index_at;

// Where the row of the glyph at place `i` stands.
pub fn place_in(merged: &[u32], i: usize) -> usize
    requires { i < length merged.now }
    ensures { result ≡ get_or merged.now i 0 }
{
    merged[i] as usize
}

// Its byte index.
pub fn index_in(s: &[u8], merged: &[u32], i: usize) -> u16
    requires { i < length merged.now }
    ensures { result ≡ (glyph_in s.now merged.now i).index }
{
    glyph_index_at(s, place_in(merged, i))
}

// How many of the glyphs have this byte index, up to the first that has another.
#[inline]
fn run_length(s: &[u8], glyphs: &[u32], index: u16) -> usize
    ensures { (result ≡ find_idx (λ (g : Glyph). not (eqb g.index index)) (glyphs_at s.now glyphs.now)) × (result ≤ length glyphs.now) }
{
    glyphs
        .iter()
        .position(|at| glyph_index_at(s, *at as usize) != index)
        .unwrap_or(glyphs.len())
}

// Where the run ends that begins at place `i`.
#[inline]
pub fn run_end(s: &[u8], merged: &[u32], i: usize) -> usize
    requires { i < length merged.now }
    ensures { (result ≡ i + length (get_or (glyph_runs (drop i (glyphs_at s.now merged.now))) 0 []))
        × (i < result) × (result ≤ length merged.now) }
{
    let next = i + 1;
    next + run_length(s, &merged[next..], index_in(s, merged, i))
}
