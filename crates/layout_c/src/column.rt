// The window over a column's labels as a C program calls it.
ghost use Rattle.column_window.specs.Called.{WindowOpened, ExtentAdded};

use column_window::Width;

#[unsafe(no_mangle)]
pub extern "C" fn column_open(window: &mut [u32], span: u32) -> Width
    ensures { WindowOpened window.old span result.number result.width window.new }
{
    column_window::open_window(window, span)
}

#[unsafe(no_mangle)]
pub extern "C" fn column_add(window: &mut [u32], extent: f32) -> Width
    ensures { ExtentAdded window.old extent result.number result.width window.new }
{
    column_window::add_extent(window, extent)
}
