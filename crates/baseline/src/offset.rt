// The decorations of a span: how far each lies from the baseline, and how thick it is.
ghost use Rattle.std.specs.Prelude.{◌≡◌, cond, ◌<◌, eqb};
ghost use Rattle.spec.specs.Single.{+0};
ghost use Rattle.spec.specs.Job.{left_to_right};
ghost use Rattle.spec.specs.Decoration.{wants, under_offset, over_offset, through_offset, thickness_of};

use crate::LEFT_TO_RIGHT;
use font_metrics::{
    ascent, height, line_through_position, underline_position, underline_thickness,
};
use spec::{Font, Span};

// The bits of a span's decorations.
pub const UNDER: u8 = 1;

pub const OVER: u8 = 2;

pub const THROUGH: u8 = 4;

// The decorations have the bit.
fn wants(span: Span, bit: u8) -> bool
    requires { 0 < bit }
    ensures { result ≡ wants span bit }
{
    span.decorations / bit % 2 == 1
}

// An offset by the writing mode: `across` left to right, `down` top to bottom. If it is not wanted, +0, whose bits are zero.
fn chosen_offset(wanted: bool, mode: u8, across: f32, down: f32) -> f32
    ensures { result ≡ cond wanted (cond (eqb mode left_to_right) across down) +0 }
{
    if !wanted {
        0.0
    } else if mode == LEFT_TO_RIGHT {
        across
    } else {
        down
    }
}

#[tactic(auto, unfolding(spec::specs::Decoration::under_offset))]
pub fn under_offset(mode: u8, font: Font, span: Span) -> f32
    ensures { result ≡ under_offset mode font span }
{
    let across = -underline_position(font, span.size);
    let down = height(font, span.size) / 2.0;
    chosen_offset(wants(span, UNDER), mode, across, down)
}

#[tactic(auto, unfolding(spec::specs::Decoration::over_offset))]
pub fn over_offset(mode: u8, font: Font, span: Span) -> f32
    ensures { result ≡ over_offset mode font span }
{
    let across = -ascent(font, span.size);
    let down = -height(font, span.size) / 2.0;
    chosen_offset(wants(span, OVER), mode, across, down)
}

#[tactic(auto, unfolding(spec::specs::Decoration::through_offset))]
pub fn through_offset(mode: u8, font: Font, span: Span) -> f32
    ensures { result ≡ through_offset mode font span }
{
    let across = -line_through_position(font, span.size);
    chosen_offset(wants(span, THROUGH), mode, across, 0.0)
}

#[tactic(auto, unfolding(spec::specs::Decoration::thickness_of))]
pub fn thickness(font: Font, span: Span) -> f32
    ensures { result ≡ thickness_of font span }
{
    underline_thickness(font, span.size)
}
