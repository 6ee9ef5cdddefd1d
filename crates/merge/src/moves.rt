// Moves of the merged list's rows, in place: the array is lent, and nothing else is copied.
// A contract speaks of the glyphs that stand at the rows in any record.
// The rows and their count stay two parameters, which is plainer: each contract of a struct with lent rows would say that it keeps them.
ghost use Rattle.std.specs.Prelude.{◌≡◌, List, ℕ, ◌+◌, ◌-◌, ◌≤◌, ◌<◌, length, drop, set};
ghost use Rattle.spec.specs.Bytes.{rows as records};
ghost use Rattle.spec.specs.Decode.{glyph_of, glyph_bytes};
ghost use Rattle.spec.specs.Merge.{inserted, removed};
ghost use Rattle.merge.specs.Merged.{glyphs_in};

use crate::glyph::GlyphRows;
use spec::Job;

// The list is a span's own glyphs, for which there is room.
pub fn list_rows(rows: &mut [u32], own: GlyphRows)
    requires { own.count ≤ length rows.old }
    ensures { (length rows.new ≡ length rows.old)
        × ((s : List ℕ) → glyphs_in s rows.new own.count ≡ records (λ r. glyph_bytes) glyph_of own.count (drop own.first s)) }
{
    for (k, row) in rows[..own.count].iter_mut().enumerate() {
        *row = own.row(k);
    }
}

// The glyph at `row` stands before place `at`, or after the last.
pub fn insert_row(rows: &mut [u32; Job::MERGED], count: usize, at: usize, row: u32)
    requires { (at ≤ count) × (count < 1024) }
    ensures { (s : List ℕ) → glyphs_in s rows.new (count + 1)
        ≡ inserted at (glyph_of (drop row s)) (glyphs_in s rows.old count) }
{
    rows.copy_within(at..count, at + 1);
    rows[at] = row;
}

// The `k` glyphs after place `at` are gone.
// Out of line: else the search for a place carries the addresses for this along, and takes a third longer.
#[inline(never)]
pub fn remove_rows(rows: &mut [u32; Job::MERGED], count: usize, at: usize, k: usize)
    requires { (at + 1 + k ≤ count) × (count ≤ 1024) }
    ensures { (s : List ℕ) → glyphs_in s rows.new (count - k)
        ≡ removed at k (glyphs_in s rows.old count) }
{
    let after = at + 1;
    rows.copy_within(after + k..count, after);
}

// The glyph at `row` stands in place `at`.
pub fn replace_row(rows: &mut [u32; Job::MERGED], count: usize, at: usize, row: u32)
    requires { (at < count) × (count ≤ 1024) }
    ensures { (s : List ℕ) → glyphs_in s rows.new count
        ≡ set (glyphs_in s rows.old count) at (glyph_of (drop row s)) }
{
    rows[at] = row;
}
