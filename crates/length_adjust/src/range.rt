// Where clusters stand in their list.
ghost use Rattle.std.specs.Prelude.{◌≡◌, ◌-◌, ◌≤◌, min, max, length, replicate};
ghost use Rattle.length_adjust.specs.Marks.{segment, places_of};

use text_order::place_of;

// The places from `from` on and before `to`; none where `from` is past `to`. The library's own range is not `Copy`.
#[derive(Clone, Copy)]
pub struct Range {
    pub from: usize,
    pub to: usize,
}

// Where the clusters of the keys stand; of no key, nowhere.
pub fn places_of(keys: &[u32]) -> Range
    ensures { result ≡ places_of keys.now }
{
    let mut from: usize = 65_536;
    let mut to: usize = 0;
    for key in keys {
        let place = place_of(*key);
        from = from.min(place);
        to = to.max(place + 1);
    }
    Range { from, to }
}

// What `marks` holds outside the range is of no account.
pub fn clear(marks: &mut [u32], within: Range)
    requires { within.to ≤ length marks.old }
    ensures { segment within marks.new ≡ replicate (within.to - within.from) 0 }
{
    if within.from < within.to {
        marks[within.from..within.to].fill(0);
    }
}
