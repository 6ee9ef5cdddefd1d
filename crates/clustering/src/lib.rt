// Step 2: the merged glyphs as clusters, one for each run of neighbours of one byte index that a span covers (the end of the Rust's
// `process_chunk`). `merged` are the places of the merged glyphs' rows in the record `s`, and `spans` those of the chunk's
// spans.
#![tactic(auto)]

pub mod chunk;
pub mod few;
pub mod form;
pub mod measures;
pub mod runs;
pub mod spans;
