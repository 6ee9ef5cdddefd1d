// The text order of the clusters, and the number of each cluster's character.
#![tactic(auto)]

ghost use Rattle.std.specs.Prelude.{◌≡◌, cond, map, ◌+◌, ◌%◌, ◌≤◌, ◌<◌, length, take, drop};
ghost use Rattle.spec.specs.Utf8.{continues, characters};
ghost use Rattle.spec.specs.Position.{logical_order, character_number};
ghost use Rattle.spec.specs.Arithmetic.{indexes};
ghost use Rattle.spec.specs.Cluster.{rounded};
ghost use Rattle.text_order.specs.Keys.{key_of, keys_of};
ghost use Rattle.text_order.specs.Ordered.{Sortable, Ordered};

use sort::sort;
use spec::Cluster;
use wire::slice::{tail, window};

// The place of the cluster that a key names.
pub fn place_of(key: u32) -> usize
    ensures { result ≡ key % 65_536 }
{
    (key % 65_536) as usize
}

// Each cluster's key: its byte index times 65,536, and its place.
fn put_keys(clusters: &[Cluster], order: &mut [u32])
    requires { Sortable order.old clusters.now }
    ensures { take (length clusters.now) order.new ≡ keys_of (indexes rounded clusters.now) }
{
    for (i, c) in clusters.iter().enumerate() {
        order[i] = c.index * 65_536 + i as u32;
    }
}

// The text order of the clusters: their keys, sorted.
pub fn logical_order(clusters: &[Cluster], order: &mut [u32])
    requires { Sortable order.old clusters.now }
    ensures { take (length clusters.now) order.new ≡ map key_of (logical_order (indexes rounded clusters.now)) }
{
    put_keys(clusters, order);
    sort(&mut order[..clusters.len()]);
}

// How many characters start with a byte: one that continues a character starts none. One line here and in `field_checks`, neither of which rests on
// the other.
fn starts(b: u8) -> usize
    ensures { (result ≡ cond (continues b) 0 1) × (result ≤ 1) }
{
    usize::from(!(0x80..=0xbf).contains(&b))
}

// How many characters start in the bytes from `at` to `end`.
fn characters_between(text: &[u8], at: usize, end: usize) -> usize
    ensures { result ≡ characters (drop at (take end text.now)) }
{
    let part = tail(window(text, 0, end), at);
    // No `filter`: a sum asks no branch for each byte.
    let mut count = 0;
    for b in part {
        count += starts(*b);
    }
    count
}

// How many characters a text has.
pub fn character_count(text: &[u8]) -> usize
    ensures { (result ≡ characters text.now) × (result ≤ length text.now) }
{
    characters_between(text, 0, text.len())
}

// The number of each cluster's character, in one pass over the text; `offset` characters come before it.
pub fn character_numbers(
    text: &[u8],
    offset: usize,
    clusters: &[Cluster],
    order: &[u32],
    numbers: &mut [u32],
)
    requires { (offset + length text.now < 4_294_967_296) × (length clusters.now ≤ length numbers.old) × Ordered order.now clusters.now }
    ensures { take (length clusters.now) numbers.new ≡ map (character_number text.now offset) (indexes rounded clusters.now) }
{
    let mut number = offset;
    let mut at: usize = 0;
    for key in &order[..clusters.len()] {
        let place = place_of(*key);
        let end = clusters[place].index as usize;
        number += characters_between(text, at, end);
        numbers[place] = number as u32;
        at = end;
    }
}
