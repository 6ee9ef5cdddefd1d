// One glyph of a span merged into a list that is not empty.
ghost use Rattle.std.specs.Prelude.{◌≡◌, List, ◌∷◌, ℕ, ◌+◌, ◌<◌, drop};
ghost use Rattle.spec.specs.Decode.{glyph_of};
ghost use Rattle.spec.specs.Outcome.{given};
ghost use Rattle.spec.specs.Merge.{replace_longer, replace as replace_in, insert_next, merge_glyph};
ghost use Rattle.merge.specs.Merged.{glyphs_in};
ghost use Rattle.merge.specs.Steps.{merging_at, merging_of, Stepped, FirstReplaced};
ghost use Rattle.merge.specs.Buckets.{seen, IsFor};

use crate::glyph::{index_at, length_at};
use crate::index::FirstPlaces;
use crate::moves::{insert_row, remove_rows, replace_row};
use crate::progress::{Marks, Progress};
use crate::search::place_of;
use spec::{Job, Refusal, Span, span_contains};

// One of the next glyphs is inserted at place `next`; 8 where the list is full.
pub fn insert_next(
    rows: &mut [u32; Job::MERGED],
    at: Progress,
    row: u32,
) -> Result<Progress, Refusal>
    requires { 0 < at.owed }
    ensures { (s positions : List ℕ) → merging_of result s rows.new positions
        ≡ insert_next (glyph_of (drop row s)) (merging_at at s rows.old positions) }
{
    if at.count < Job::MERGED {
        insert_row(rows, at.count, at.next, row);
        return Ok(Progress {
            count: at.count + 1,
            owed: at.owed - 1,
            next: at.next + 1,
        });
    }
    Err(Refusal::TooManyGlyphs)
}

// The glyph at `row` takes place `p` and that of the `gone` glyphs after it; 7 where the list ends before.
pub fn replace_longer(
    rows: &mut [u32; Job::MERGED],
    at: Progress,
    p: usize,
    row: u32,
    gone: usize,
) -> Result<Progress, Refusal>
    requires { (p < at.count) × (gone < 256) }
    ensures { (s positions : List ℕ) → gone + 1 ≡ (glyph_of (drop row s)).length → merging_of result s rows.new (p ∷ positions)
        ≡ replace_longer (glyph_of (drop row s)) p (merging_at at s rows.old positions) }
{
    if p + gone < at.count {
        let left = at.count - gone;
        remove_rows(rows, at.count, p, gone);
        replace_row(rows, left, p, row);
        return Ok(Progress::of_list(left));
    }
    Err(Refusal::MergePastEnd)
}

// The glyph at `row` takes place `p`. If it is shorter than the one there, up to the old length - 1 of the next follow it.
pub fn replace(
    s: &[u8],
    rows: &mut [u32; Job::MERGED],
    at: Progress,
    p: usize,
    row: u32,
) -> Result<Progress, Refusal>
    requires { p < at.count }
    ensures { (positions : List ℕ) → merging_of result s.now rows.new (p ∷ positions)
        ≡ replace_in (glyph_of (drop row s.now)) p (merging_at at s.now rows.old positions) }
{
    let old = length_at(s, rows[p]);
    let new = length_at(s, row);
    if old < new {
        return replace_longer(rows, at, p, row, new - 1);
    }
    replace_row(rows, at.count, p, row);
    let owed = if new < old { old - 1 } else { 0 };
    Ok(Progress {
        count: at.count,
        owed,
        next: p + 1,
    })
}

// The glyph at `row`, which the span covers, replaces the first of its byte index. It is skipped where there is none, and where that place was
// replaced already: then its mark is the span's stamp.
pub fn replace_first(
    s: &[u8],
    rows: &mut [u32; Job::MERGED],
    marks: &mut Marks,
    table: &FirstPlaces<'_>,
    at: Progress,
    row: u32,
    index: u16,
) -> Result<Progress, Refusal>
    requires { IsFor (seen table.now) (glyphs_in s.now rows.old at.count) × (index ≡ (glyph_of (drop row s.now)).index) }
    ensures { FirstReplaced at result s.now rows.old rows.new marks.old marks.new (glyph_of (drop row s.now)) }
{
    let p = place_of(s, rows, at.count, index, table.search_start(index));
    if at.count <= p {
        return Ok(Progress::of_list(at.count));
    }
    if marks.stamps[p] == marks.stamp {
        return Ok(Progress::of_list(at.count));
    }
    marks.stamps[p] = marks.stamp;
    replace(s, rows, at, p, row)
}

// The next glyph of the span, which stands at `row`. One that is owed is inserted whether or not the span covers it.
pub fn merge_glyph(
    s: &[u8],
    span: Span,
    rows: &mut [u32; Job::MERGED],
    marks: &mut Marks,
    table: &FirstPlaces<'_>,
    at: Progress,
    row: u32,
) -> Result<Progress, Refusal>
    requires { IsFor (seen table.now) (glyphs_in s.now rows.old at.count) }
    ensures { Stepped result s.now rows.new marks.old marks.new
        (λ positions. merge_glyph span (given (merging_at at s.now rows.old positions)) (glyph_of (drop row s.now))) }
{
    let index = index_at(s, row);
    let covered = span_contains(span, index as u32);
    if 0 < at.owed {
        return insert_next(rows, at, row);
    }
    if !covered {
        return Ok(Progress::of_list(at.count));
    }
    replace_first(s, rows, marks, table, at, row, index)
}
