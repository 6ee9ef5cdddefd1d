// The search for a byte index in the merged list.
ghost use Rattle.std.specs.Prelude.{◌≡◌, ◌≤◌, length};
ghost use Rattle.spec.specs.Merge.{place_of};
ghost use Rattle.merge.specs.Merged.{glyphs_in};

use crate::glyph::index_at;

// The place of the first glyph of byte index `index`; the count where there is none. No glyph before place `from` has that index.
// A number and no Option, as the definition has it: it is compared with the count.
pub fn place_of(s: &[u8], rows: &[u32], count: usize, index: u16, from: usize) -> usize
    requires { (count ≤ length rows.now) × (from ≤ place_of index (glyphs_in s.now rows.now count)) }
    ensures { result ≡ place_of index (glyphs_in s.now rows.now count) }
{
    let rest = &rows[from..count];
    from + rest
        .iter()
        .position(|row| index_at(s, *row) == index)
        .unwrap_or(rest.len())
}
