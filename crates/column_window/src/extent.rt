// Which extents pass, and the pattern that a window keeps of one.
ghost use Rattle.std.specs.Prelude.{◌≡◌};
ghost use Rattle.column_window.specs.Window.{extent_ok};
ghost use Rattle.column_window.specs.Words.{pattern_of};

use wire::write::bits_of;

// Finite, and not below zero.
#[tactic(auto, using(crate::proofs::Extents::finite_same), unfolding(crate::specs::Window::extent_ok))]
pub fn extent_ok(extent: f32) -> bool
    ensures { result ≡ extent_ok extent }
{
    extent.is_finite() && 0.0 <= extent
}

// Zero of either sign counts as plus zero.
#[tactic(auto, using(crate::proofs::Extents::pattern_zero), unfolding(crate::specs::Words::pattern_of, crate::specs::Window::plain))]
pub fn pattern(extent: f32) -> u32
    ensures { result ≡ pattern_of extent }
{
    if extent == 0.0 { 0 } else { bits_of(extent) }
}
