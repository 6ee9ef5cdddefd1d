// The layout as a C program calls it: include/layout.h declares what stands here. A slice is a pointer and a length to C.
#![tactic(auto)]

pub mod column;

ghost use Rattle.std.specs.Prelude.{◌≡◌, ◌<◌};
ghost use Rattle.layout.specs.Returned.{returned_number, returned_length};
ghost use Rattle.layout.specs.Called.{LayoutPromise};

use spec::Refusal;

// A number beside a length, and no Result: C takes it.
#[repr(C)]
#[derive(Clone, Copy)]
pub struct LayoutResult {
    pub number: u32,
    pub length: u32,
}

// Not a `From`, which cannot ask that the length fits.
fn result_of(answered: Result<usize, Refusal>) -> LayoutResult
    requires { returned_length answered < 4_294_967_296 }
    ensures { (result.number ≡ returned_number answered) × (result.length ≡ returned_length answered) }
{
    match answered {
        Ok(length) => LayoutResult {
            number: 0,
            length: length as u32,
        },
        Err(refusal) => LayoutResult {
            number: u32::from(u8::from(refusal)),
            length: 0,
        },
    }
}

#[unsafe(no_mangle)]
pub extern "C" fn layout_text(job: &[u8], answer: &mut [u8]) -> LayoutResult
    ensures { LayoutPromise job.now answer.old result.number result.length answer.new }
{
    result_of(layout::layout_text(job, answer))
}
