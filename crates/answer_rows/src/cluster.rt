// Cluster rows, each with its glyphs' rows.
ghost use Rattle.std.specs.Prelude.{◌≡◌, true, ◌+◌, ◌*◌, ◌≤◌, length};
ghost use mathlib.Core.List.{map, flat_map};
ghost use Rattle.spec.specs.Answer.{cluster_row_bytes, cluster_row_length, cluster_row_size};
ghost use Rattle.spec.specs.Layout.{cluster_row};
ghost use Rattle.job_rows.specs.Rows.{glyphs_at};
ghost use Rattle.wire.specs.Splice.{splice};
ghost use Rattle.answer_rows.specs.Glyphs.{units_in};
ghost use Rattle.answer_rows.specs.Clusters.{floats_of, cluster_head_bytes, glyphs_within, cluster_size, clusters_size};

use crate::flags::flags_of;
use crate::floats::put_floats;
use crate::glyphs::{glyph_places, put_glyphs};
use answer_format::{
    CLUSTER_FLAGS_AT, CLUSTER_FLOATS_AT, CLUSTER_INDEX_BYTES, CLUSTER_ROW_BYTES, GLYPH_COUNT_AT,
    GLYPH_COUNT_BYTES, GLYPH_ROW_BYTES,
};
use spec::Cluster;
use wire::write::{put_number, put_u8};

// ---- how long they are

// How many glyphs of a merged list of `count` are the cluster's.
fn glyphs_within(count: usize, c: &Cluster) -> usize
    ensures { (result ≡ glyphs_within count c.now) × (result ≤ count) }
{
    (c.count as usize).min(count.saturating_sub(c.from as usize))
}

#[tactic(auto, unfolding(crate::specs::Clusters::cluster_size))]
pub fn cluster_row_length(count: usize, c: &Cluster) -> usize
    requires { count ≤ 65_536 }
    ensures { (result ≡ cluster_size count c.now) × (result ≤ cluster_row_size count) }
{
    CLUSTER_ROW_BYTES + GLYPH_ROW_BYTES * glyphs_within(count, c)
}

// Of all clusters.
pub fn cluster_rows_length(count: usize, clusters: &[Cluster]) -> usize
    requires { (count ≤ 65_536) × (length clusters.now ≤ 65_535) }
    ensures { (result ≡ clusters_size count clusters.now)
        × (result ≤ length clusters.now * cluster_row_size count) }
{
    clusters.iter().map(|c| cluster_row_length(count, c)).sum()
}

// ---- their bytes

// The record, its merged list, the clusters and the place in the buffer go by parameters and no struct: a cluster's rows take the list, a span's
// the clusters, and glyphs' rows the record alone. That there are fewer than 65,536 clusters is asked where it is needed: a type that says it
// would ask it of all.

// A cluster's floats, as they are written.
pub fn floats_of(c: &Cluster) -> [f32; 10]
    ensures { result ≡ floats_of c.now }
{
    [
        c.width, c.advance, c.spacing, c.ascent, c.descent, c.nudge, c.scale, c.x, c.y, c.angle,
    ]
}

// The row of a cluster with so many glyphs, up to them.
fn put_cluster_head(out: &mut [u8], at: usize, mode: u8, c: &Cluster, glyphs: usize)
    requires { at + cluster_row_size 0 ≤ length out.old }
    ensures { out.new ≡ splice out.old at (cluster_head_bytes mode c.now glyphs) }
{
    put_number(out, at, CLUSTER_INDEX_BYTES, c.index as u64);
    put_u8(out, at + CLUSTER_FLAGS_AT, flags_of(mode, c));
    put_floats(out, at + CLUSTER_FLOATS_AT, &floats_of(c));
    put_number(out, at + GLYPH_COUNT_AT, GLYPH_COUNT_BYTES, glyphs as u64);
}

// The row of a cluster whose glyphs stand in the merged list, the places of glyph rows in the record `s`. The result is the place behind it.
pub fn put_cluster_row(
    out: &mut [u8],
    at: usize,
    mode: u8,
    s: &[u8],
    merged: &[u32],
    c: &Cluster,
) -> usize
    requires { (at + cluster_row_length (cluster_row mode (glyphs_at s.now merged.now) c.now) ≤ length out.old)
        × (units_in (glyphs_at s.now merged.now) ≡ true) }
    ensures { let row = cluster_row mode (glyphs_at s.now merged.now) c.now in
        (out.new ≡ splice out.old at (cluster_row_bytes row)) × (result ≡ at + cluster_row_length row) }
{
    let places = glyph_places(merged, c.from as usize, c.count as usize);
    put_cluster_head(out, at, mode, c, places.len());
    put_glyphs(out, at + CLUSTER_ROW_BYTES, s, places)
}

// The rows of all clusters; the result is the place behind them.
pub fn put_cluster_rows(
    out: &mut [u8],
    at: usize,
    mode: u8,
    s: &[u8],
    merged: &[u32],
    clusters: &[Cluster],
) -> usize
    requires { (length clusters.now ≤ 65_535) × (units_in (glyphs_at s.now merged.now) ≡ true)
        × (at + clusters_size (length merged.now) clusters.now ≤ length out.old) }
    ensures { (out.new ≡ splice out.old at (flat_map cluster_row_bytes
        (map (cluster_row mode (glyphs_at s.now merged.now)) clusters.now)))
        × (result ≡ at + clusters_size (length merged.now) clusters.now) }
{
    let mut here = at;
    for c in clusters {
        here = put_cluster_row(out, here, mode, s, merged, c);
    }
    here
}
