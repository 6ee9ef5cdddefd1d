// The fields of a stored record. A byte past the end counts as 0, and what is cut off is shorter.
ghost use Rattle.std.specs.Prelude.{◌≡◌, ◌<◌};
ghost use Rattle.replay.specs.Record.{lent_of, number_of, job_of, answer_at, answer_of, size_of};

use wire::read::{u8_at, u32_at};
use wire::slice::window;

const LENT_AT: usize = 0;

const NUMBER_AT: usize = 4;

const JOB_LENGTH_AT: usize = 5;

const LENGTH_BYTES: usize = 4;

const JOB_AT: usize = JOB_LENGTH_AT + LENGTH_BYTES;

// The record that the bytes start with.
#[derive(Clone, Copy)]
pub struct Record<'a> {
    pub bytes: &'a [u8],
}

impl<'a> Record<'a> {
    // How long a buffer is lent.
    #[tactic(auto, unfolding(crate::specs::Record::lent_of))]
    pub fn lent_length(self) -> usize
        ensures { result ≡ lent_of self.entry.bytes.now }
    {
        u32_at(self.bytes, LENT_AT) as usize
    }

    // The refusal's number; 0 where the job is accepted.
    #[tactic(auto, unfolding(crate::specs::Record::number_of))]
    pub fn number(self) -> u8
        ensures { result ≡ number_of self.entry.bytes.now }
    {
        u8_at(self.bytes, NUMBER_AT)
    }

    #[tactic(auto, unfolding(crate::specs::Record::job_of))]
    pub fn job(self) -> &'a [u8]
        ensures { result.now ≡ job_of self.entry.bytes.now }
    {
        let length = u32_at(self.bytes, JOB_LENGTH_AT) as usize;
        window(self.bytes, JOB_AT, length)
    }

    // Where the answer's length stands.
    #[tactic(auto, unfolding(crate::specs::Record::answer_at))]
    fn answer_at(self) -> usize
        ensures { (result ≡ answer_at self.entry.bytes.now) × (result < 4_294_967_305) }
    {
        JOB_AT + (u32_at(self.bytes, JOB_LENGTH_AT) as usize)
    }

    #[tactic(auto, unfolding(crate::specs::Record::answer_of))]
    pub fn answer(self) -> &'a [u8]
        ensures { result.now ≡ answer_of self.entry.bytes.now }
    {
        let at = self.answer_at();
        let length = u32_at(self.bytes, at) as usize;
        window(self.bytes, at + LENGTH_BYTES, length)
    }

    // How many bytes it has.
    #[tactic(auto, unfolding(crate::specs::Record::size_of))]
    pub fn size(self) -> usize
        ensures { result ≡ size_of self.entry.bytes.now }
    {
        let at = self.answer_at();
        at + LENGTH_BYTES + (u32_at(self.bytes, at) as usize)
    }
}
