// How far the layout of a job has come, and the chunk that is next.
use spec::{Job, Point};

// How far the layout has come: the pen, how many characters came before, how many bytes the answer has, and the extent of the last chunk, 0 before
// the first.
#[derive(Clone, Copy)]
pub struct Progress {
    pub pen: Point,
    pub offset: usize,
    pub length: usize,
    pub extent: f32,
}

// The next chunk: its job, where it stands in the record, and the progress before it.
#[derive(Clone, Copy)]
pub struct NextChunk {
    pub job: Job,
    pub at: usize,
    pub before: Progress,
}
