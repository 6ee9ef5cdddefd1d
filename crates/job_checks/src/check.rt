// The checks of a job in their order, each over the whole job before the next.
ghost use Rattle.std.specs.Prelude.{◌≡◌, cond, Ok, Err};
ghost use Rattle.spec.specs.Refusal.{outcome_of};
ghost use Rattle.spec.specs.Check.{length_ok, version_ok};
ghost use Rattle.job_checks.specs.Verdict.{verdict_number, places_of, verdict_of};
ghost use Rattle.job_checks.specs.Checks.{Found};

use job_rows::sizes::{CHUNK_COUNT_BYTES, FONT_BYTES, FONTS_AT, font_count, list_size};
use spec::{Job, Refusal};
use wire::read::{byte_at, u8_at, u32_at};
use wire::slice::tail;

// Where the version stands, behind the length field; the version that the program reads; and where the job's own fields begin.
pub const VERSION_AT: usize = 4;

pub const JOB_VERSION: u8 = 1;

pub const AFTER_VERSION: usize = VERSION_AT + 1;

#[tactic(auto, unfolding(spec::specs::Check::length_ok, spec::specs::Lists::every))]
pub fn length_ok(bytes: &[u8]) -> bool
    ensures { result ≡ length_ok bytes.now }
{
    if bytes.len() < AFTER_VERSION {
        return false;
    }
    let rest = bytes.len() - VERSION_AT;
    (bytes.len() <= Job::BYTES) & (u32_at(bytes, 0) as usize == rest)
}

#[tactic(auto, unfolding(spec::specs::Check::version_ok))]
pub fn version_ok(bytes: &[u8]) -> bool
    ensures { result ≡ version_ok bytes.now }
{
    byte_at(bytes, VERSION_AT) == JOB_VERSION
}

// Where the parts of the record's job stand, each behind the one before it.
pub fn places(bytes: &[u8]) -> Job
    ensures { result ≡ places_of bytes.now }
{
    let rest = tail(bytes, AFTER_VERSION);
    let fonts = font_count(rest);
    let dx = AFTER_VERSION + FONTS_AT + fonts * FONT_BYTES;
    let dy = dx + list_size(tail(bytes, dx));
    let rotate = dy + list_size(tail(bytes, dy));
    let chunks = rotate + list_size(tail(bytes, rotate));
    Job {
        mode: u8_at(rest, 0),
        fonts,
        dx,
        dy,
        rotate,
        chunks,
    }
}

// A record and its parts: where they stand, the bytes from the first chunk on, and the chunk count.
#[derive(Clone, Copy)]
pub struct JobParts<'a> {
    pub bytes: &'a [u8],
    pub job: Job,
    pub chunks: &'a [u8],
    pub count: usize,
    ghost found: { Found bytes.now job chunks.now count },
}

impl<'a> JobParts<'a> {
    pub fn of(bytes: &'a [u8]) -> JobParts<'a>
        ensures { result.bytes.now ≡ bytes.now }
    {
        let job = places(bytes);
        // from the chunk count on
        let counted = tail(bytes, job.chunks);
        JobParts {
            bytes,
            job,
            chunks: tail(counted, CHUNK_COUNT_BYTES),
            count: u8_at(counted, 0) as usize,
        }
    }
}

// A check that does not pass ends the checks with its refusal.
fn refuse_unless(passes: bool, refusal: Refusal) -> Result<(), Refusal>
    ensures { result ≡ cond passes (Ok tt) (Err refusal) }
{
    if passes { Ok(()) } else { Err(refusal) }
}

#[tactic(auto, unfolding(crate::specs::Verdict::verdict_of, spec::specs::Outcome::and_then, spec::specs::Outcome::first_failing, spec::specs::Check::checks))]
pub fn check(bytes: &[u8]) -> Result<Job, Refusal>
    ensures { outcome_of result ≡ verdict_of bytes.now }
{
    refuse_unless(length_ok(bytes), Refusal::BadLength)?;
    refuse_unless(version_ok(bytes), Refusal::BadVersion)?;
    let parts = JobParts::of(bytes);
    refuse_unless(parts.is_shaped(), Refusal::BadCount)?;
    refuse_unless(parts.values_ok(), Refusal::BadField)?;
    refuse_unless(parts.texts_ok(), Refusal::BadText)?;
    refuse_unless(parts.orders_ok(), Refusal::BadSpan)?;
    Ok(parts.job)
}

// Document 01's number for a record: 0 where its job is accepted.
#[tactic(auto, unfolding(crate::specs::Verdict::verdict_number))]
pub fn number(bytes: &[u8]) -> u8
    ensures { result ≡ verdict_number (verdict_of bytes.now) }
{
    match check(bytes) {
        Ok(_) => 0,
        Err(refusal) => u8::from(refusal),
    }
}
