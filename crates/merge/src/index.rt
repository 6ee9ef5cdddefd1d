// The table of first places: it says where the search for a byte index in the merged list begins. Without it each glyph of a span would walk
// the list from its start. An entry need not be the place itself. It is enough that no glyph before it has the byte index: the search goes on
// from there until it meets one. So 32 neighbours share an entry, which keeps the table small, and it need not be made anew for each insertion
// or removal: the search begins earlier by the table's slack, which is how many glyphs were inserted or removed since.
ghost use Rattle.std.specs.Prelude.{◌≡◌, ◌-◌, ◌≤◌, length, get_or, set};
ghost use Rattle.merge.specs.Merged.{glyphs_in};
ghost use Rattle.merge.specs.Buckets.{bucket_of, buckets_of, lowered, seen, table_after, renewed};

use crate::glyph::index_at;

// How many neighbouring byte indexes share an entry.
pub const BUCKET: usize = 32;

// A search walks up to twice as many glyphs as were inserted or removed since the table was made. Past this number it is made anew, which
// takes a walk of the whole list.
const SLACK: usize = 32;

// The entry for byte index `index`, where the table has one, is `place`.
fn set_bucket(buckets: &mut [u16], index: u16, place: u16)
    ensures { buckets.new ≡ set buckets.old (bucket_of index) place }
{
    let b = index as usize / BUCKET;
    if b < buckets.len() {
        buckets[b] = place;
    }
}

// The table for a list of `count` glyphs. It is filled with the count, so that a byte index that no glyph has is known to be missing at once.
// The glyphs are then put from the last to the first, so that the first of a byte index stays.
pub fn build_index(s: &[u8], rows: &[u32], count: usize, buckets: &mut [u16])
    requires { (count ≤ length rows.now) × (count ≤ 1024) }
    ensures { buckets.new ≡ buckets_of (length buckets.old) (glyphs_in s.now rows.now count) }
{
    buckets.fill(count as u16);
    // By place: no law of the library says what `rev` of `enumerate` gives.
    for i in (0..count).rev() {
        set_bucket(buckets, index_at(s, rows[i]), i as u16);
    }
}

// The entry for byte index `index`, where the table has one, is no later than `place`.
fn lower_bucket(buckets: &mut [u16], index: u16, place: u16)
    ensures { buckets.new ≡ lowered buckets.old index place }
{
    let b = index as usize / BUCKET;
    if b < buckets.len() {
        buckets[b] = buckets[b].min(place);
    }
}

// The table, whose entries are lent, and its slack. Entries are places in the merged list, and no references: memory is fixed, and rows move.
#[derive(Drop)]
pub struct FirstPlaces<'a> {
    pub buckets: &'a mut [u16],
    pub slack: usize,
}

impl FirstPlaces<'_> {
    // Where the search for byte index `index` begins: at the list's start where the table has no entry for it.
    pub fn search_start(&self, index: u16) -> usize
        ensures { result ≡ get_or (seen self.now).buckets (bucket_of index) 0 - (seen self.now).slack }
    {
        match self.buckets.get(index as usize / BUCKET) {
            Some(place) => (*place as usize).saturating_sub(self.slack),
            None => 0,
        }
    }

    // The table after a step that took the list from `before` to `count` glyphs. A glyph that was inserted, of byte index `index` at `place`, may be
    // the first of its byte index. No other place is earlier for it, but each entry may be one further from its place.
    pub fn follow_step(&mut self, before: usize, count: usize, index: u16, place: usize)
        requires { (before ≤ 1024) × (place ≤ 1024) × (self.old.slack ≤ 1024) }
        ensures { seen self.new ≡ table_after before count index place (seen self.old) }
    {
        if before < count {
            lower_bucket(self.buckets, index, place as u16);
            self.slack += 1;
        } else {
            let removed = before - count;
            self.slack += removed;
        }
    }

    // The table for a list of `count` glyphs, made anew if its slack is past its limit.
    pub fn renew(&mut self, s: &[u8], rows: &[u32], count: usize)
        requires { (count ≤ length rows.now) × (count ≤ 1024) }
        ensures { seen self.new ≡ renewed (glyphs_in s.now rows.now count) (seen self.old) }
    {
        if SLACK < self.slack {
            build_index(s, rows, count, self.buckets);
            self.slack = 0;
        }
    }
}
