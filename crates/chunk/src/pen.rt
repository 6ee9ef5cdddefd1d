// The pen: where a chunk begins, and where it leaves off.
ghost use Rattle.std.specs.Prelude.{◌≡◌, cond, drop};
ghost use Rattle.spec.specs.Decode.{chunk_of};
ghost use Rattle.spec.specs.Layout.{origin_of, pen_after};

use job_rows::sizes::{CHUNK_X_AT, CHUNK_Y_AT};
use spec::{Job, Point};
use wire::read::{f32_at, u8_at};
use wire::slice::tail;

// A chunk's own value where its flag is set, else the pen's.
fn own_or(set: bool, own: f32, pen: f32) -> f32
    ensures { result ≡ cond set own pen }
{
    if set { own } else { pen }
}

// The x and y of the chunk at `at`, each taken from the pen where its flag is clear.
pub fn origin_of(pen: Point, s: &[u8], at: usize) -> Point
    ensures { result ≡ origin_of pen (chunk_of (drop at s.now)) }
{
    let chunk = tail(s, at);
    let flags = u8_at(chunk, 0);
    Point {
        x: own_or(flags % 2 == 1, f32_at(chunk, CHUNK_X_AT), pen.x),
        y: own_or(flags / 2 % 2 == 1, f32_at(chunk, CHUNK_Y_AT), pen.y),
    }
}

// The origin plus the pair that step 7 returns, swapped top to bottom.
pub fn pen_after(mode: u8, origin: Point, x: f32, y: f32) -> Point
    ensures { result ≡ pen_after mode origin x y }
{
    if mode == Job::TOP_TO_BOTTOM {
        return Point {
            x: origin.x + y,
            y: origin.y + x,
        };
    }
    Point {
        x: origin.x + x,
        y: origin.y + y,
    }
}
