// What is compared: outcomes, and bytes.
ghost use Rattle.std.specs.Prelude.{ℕ, ◌≡◌, ◌&&◌, eqb, length, take, drop};
ghost use Rattle.spec.specs.Lists.{all};
ghost use Rattle.layout.specs.Returned.{returned_number, returned_length};
ghost use Rattle.replay.specs.Same.{same};

use spec::Refusal;
use wire::slice::{tail, window};

// What the lent buffer holds before the call.
pub const PATTERN: u8 = 0xa5;

// Whether the call gave this number and this length.
pub fn same_outcome(answered: Result<usize, Refusal>, number: u8, length: usize) -> bool
    ensures { result ≡ eqb (returned_number answered) number && eqb (returned_length answered) length }
{
    match answered {
        Ok(n) => 0 == number && n == length,
        Err(refusal) => u8::from(refusal) == number && 0 == length,
    }
}

// Whether the buffer holds the answer, and past it what it held before the call. A refused job's answer has no bytes.
pub fn holds(buffer: &[u8], answer: &[u8]) -> bool
    ensures { result ≡ same (take (length answer.now) buffer.now) answer.now
        && all (λ (x : ℕ). eqb x 0xa5) (drop (length answer.now) buffer.now) }
{
    let n = answer.len();
    let begins = window(buffer, 0, n) == answer;
    begins && tail(buffer, n).iter().all(|byte| *byte == PATTERN)
}
