// The flags of a cluster row.
ghost use Rattle.std.specs.Prelude.{◌≡◌, cond, ◌≤◌, eqb};
ghost use Rattle.spec.specs.Job.{top_to_bottom};
ghost use Rattle.spec.specs.Layout.{bit, flags_of};

use spec::{Cluster, Job};

pub const RELATIVE: u8 = 1;

pub const UPRIGHT: u8 = 2;

pub const SIDEWAYS: u8 = 4;

pub const SCALED: u8 = 8;

pub const ROTATED: u8 = 16;

pub const COLLAPSED: u8 = 32;

fn flag(set: bool, value: u8) -> u8
    ensures { (result ≡ bit set value) × (result ≤ value) }
{
    if set { value } else { 0 }
}

// Upright or sideways, which occur top to bottom only.
fn turn_flag(mode: u8, upright: bool) -> u8
    ensures { (result ≡ cond (eqb mode top_to_bottom) (cond upright 2 4) 0) × (result ≤ 4) }
{
    if mode != Job::TOP_TO_BOTTOM {
        return 0;
    }
    if upright { UPRIGHT } else { SIDEWAYS }
}

pub fn flags_of(mode: u8, c: &Cluster) -> u8
    ensures { result ≡ flags_of mode c.now }
{
    flag(c.relative, RELATIVE)
        + turn_flag(mode, c.upright)
        + flag(c.scaled, SCALED)
        + flag(c.rotated, ROTATED)
        + flag(c.collapsed, COLLAPSED)
}
