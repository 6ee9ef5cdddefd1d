// A record that passes the checks.
ghost use Rattle.layout.specs.Checked.{CheckedJob};

use spec::Job;

// Its bytes, and where the parts of its job stand.
#[derive(Clone, Copy)]
pub struct Checked<'a> {
    pub bytes: &'a [u8],
    pub job: Job,
    ghost passed: { CheckedJob bytes.now job },
}
