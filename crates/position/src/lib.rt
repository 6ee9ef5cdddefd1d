// Step 7: the clusters along the line (the Rust's `resolve_clusters_positions_horizontal`).
#![tactic(auto)]

pub mod line;
pub mod line_extent;
pub mod relative;
pub mod shifts;

// How far the clusters reach to the left and to the right, and their advances together.
#[derive(Clone, Copy)]
pub struct Extent {
    pub left: f32,
    pub right: f32,
    pub advance: f32,
}

// What step 7 gives beside the clusters: the extent (right less left), and the pair that the Rust returns.
#[derive(Clone, Copy)]
pub struct Positioned {
    pub extent: f32,
    pub end_x: f32,
    pub end_y: f32,
}
