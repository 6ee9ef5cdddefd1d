// A walk over records that stand one after the other: whether each passes a test. It ends at the first that does not.
ghost use Rattle.std.specs.Prelude.{◌≡◌, ℕ, List, Bool};
ghost use Rattle.std.specs.Fn.{FnReturnsAt};
ghost use Rattle.spec.specs.Bytes.{all_records};
ghost use Rattle.job_checks.specs.Walk.{Tests};

use job_rows::records::Record;
use wire::slice::tail;

// `passes` is given the bytes from each of the `n` records on.
pub fn all_pass<R: Record, F: Fn(&[u8]) -> bool>(records: &[u8], n: usize, passes: F) -> bool
    requires { F.IsAlwaysCallable passes }
    ensures { (test : List ℕ → Bool) → Tests (FnReturnsAt F.Fn passes) test → result ≡ all_records R.size test n records.now }
{
    let mut rest = records;
    for left in (0..n).rev() {
        if !passes(rest) {
            return false;
        }
        // nothing stands behind the last
        if 0 < left {
            rest = tail(rest, R::size(rest));
        }
    }
    true
}
