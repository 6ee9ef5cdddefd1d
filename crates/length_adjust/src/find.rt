// Which clusters take part for a span: the first of each of its byte indexes, found along the text order.
ghost use Rattle.std.specs.Prelude.{◌≡◌, true, map, ℕ, ◌/◌, ◌%◌, ◌≤◌, length, set, leb, ltb};
ghost use Rattle.spec.specs.Lists.{all};
ghost use Rattle.spec.specs.Looked.{bytes_looked};
ghost use Rattle.sort.specs.Sorted.{ascending};
ghost use Rattle.length_adjust.specs.Marks.{marked_in, marked, mark, found, bytes_to, taking_part};

use crate::keys::{passed, span_keys};
use crate::range::{Range, clear, places_of};
use spec::Span;
use text_order::place_of;

// What a search came to: where the clusters stand that it marked, and how many bytes it looked at.
#[derive(Clone, Copy)]
pub struct Search {
    pub within: Range,
    pub looked: u32,
}

fn mark_cluster(key: u32, marks: &mut [u32])
    ensures { marks.new ≡ set marks.old (key % 65_536) 1 }
{
    let place = place_of(key);
    if place < marks.len() {
        marks[place] = 1;
    }
}

// Looks at the bytes from `start` on, one after the other, until the clusters of all keys are found, and marks the first of each byte index.
// How many bytes it looked at is the result. A turn is a byte, and not a key,
// so that no iterator over the keys is plainer.
fn find_clusters(keys: &[u32], start: u32, marks: &mut [u32]) -> u32
    requires { (ascending keys.now ≡ true) × (all (λ (key : ℕ). leb start (key / 65_536)) keys.now ≡ true) }
    ensures { (result ≡ bytes_to start keys.now)
        × (marks.new ≡ mark marks.old (found (length marks.old) keys.now start (bytes_to start keys.now))) }
{
    let mut rest = keys;
    let mut looked: u32 = 0;
    while let Some(key) = rest.first() {
        let b = start + looked;
        if *key / 65_536 == b {
            mark_cluster(*key, marks);
            rest = &rest[passed(rest, b + 1)..];
        }
        looked += 1;
    }
    looked
}

// Marks the clusters that take part for the span, and ends with its last cluster. `keys` is the text order; what `marks` holds outside the range
// is of no account.
pub fn mark_span(span: Span, keys: &[u32], marks: &mut [u32]) -> Search
    requires { (ascending keys.now ≡ true) × (all (λ (key : ℕ). ltb (key % 65_536) (length marks.old)) keys.now ≡ true) }
    ensures { (result.looked ≡ bytes_looked span (map (λ (key : ℕ). key / 65_536) keys.now)) × (result.within.to ≤ length marks.old)
        × (marked_in result.within marks.new ≡ marked (taking_part span keys.now (length marks.old))) }
{
    let own = span_keys(span, keys);
    let within = places_of(own);
    clear(marks, within);
    let looked = find_clusters(own, span.start as u32, marks);
    Search { within, looked }
}
