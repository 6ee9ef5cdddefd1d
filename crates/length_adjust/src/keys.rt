// Keys in text order: how many come before a byte index. That they ascend is asked of four functions, each with another part of the keys: a type for
// it would be made anew at each part.
ghost use Rattle.std.specs.Prelude.{◌≡◌, true, ◌≤◌, length};
ghost use Rattle.sort.specs.Sorted.{ascending};
ghost use Rattle.length_adjust.specs.Marks.{below, own_keys};

use spec::Span;

// How many keys have a byte index below `b`. The keys ascend, and a span's own may begin and end anywhere among them, so that halving finds it.
fn first_key(keys: &[u32], b: u32) -> usize
    requires { ascending keys.now ≡ true }
    ensures { (result ≡ below b keys.now) × (result ≤ length keys.now) }
{
    keys.partition_point(|key| *key / 65_536 < b)
}

// The keys of the span's clusters.
pub fn span_keys(span: Span, keys: &[u32]) -> &[u32]
    requires { ascending keys.now ≡ true }
    ensures { result.now ≡ own_keys span keys.now }
{
    let start = first_key(keys, span.start as u32);
    let rest = &keys[start..];
    let end = first_key(rest, span.end as u32);
    &rest[..end]
}

// How many keys come before the first whose byte index is not below `b`, for keys that begin with those of the byte before `b`: these are mostly few,
// so that steps from the front are fewer than halving takes.
pub fn passed(keys: &[u32], b: u32) -> usize
    ensures { (result ≡ below b keys.now) × (result ≤ length keys.now) }
{
    keys.iter()
        .position(|key| b <= *key / 65_536)
        .unwrap_or(keys.len())
}
