// Decoration runs: the stretches of neighbouring clusters of a span that are drawn with one line.
#![tactic(auto)]

ghost use Rattle.std.specs.Prelude.{◌≡◌, ◌+◌, ◌*◌, ◌≤◌, length};
ghost use mathlib.Core.List.{flat_map};
ghost use Rattle.spec.specs.Decoration.{collect_decoration_spans};
ghost use Rattle.spec.specs.Answer.{run_size, run_bytes};
ghost use Rattle.wire.specs.Splice.{splice};
ghost use Rattle.decoration.specs.Runs.{no_run, opened, opened_by, ended_since};

use answer_format::{RUN_BYTES, RUN_FIRST_BYTES};
use spec::{Cluster, Run, Span, span_contains};
use wire::write::{put_f32, put_number};

// How many runs have ended, and the one that has started, if any.
#[derive(Clone, Copy)]
pub struct OpenRun {
    pub ended: usize,
    pub run: Option<Run>,
}

// ---- the next cluster

// Before the first cluster.
fn no_run() -> OpenRun
    ensures { result ≡ no_run }
{
    OpenRun {
        ended: 0,
        run: None,
    }
}

// Behind the cluster at `place`, which may be inside the span and have a relative shift.
#[tactic(auto, unfolding(crate::specs::Runs::opened))]
pub fn open_run(o: OpenRun, place: usize, inside: bool, relative: bool, advance: f32) -> OpenRun
    requires { o.ended ≤ 65_535 }
    ensures { result ≡ opened o place inside relative advance }
{
    let started = inside.then_some(Run {
        first: place,
        width: advance,
    });
    match o.run {
        Some(run) if inside & !relative => OpenRun {
            ended: o.ended,
            run: Some(Run {
                first: run.first,
                width: run.width + advance,
            }),
        },
        Some(_) => OpenRun {
            ended: o.ended + 1,
            run: started,
        },
        None => OpenRun {
            ended: o.ended,
            run: started,
        },
    }
}

// Behind the cluster `c`, which stands at `place`.
fn next_run(o: OpenRun, span: Span, place: usize, c: &Cluster) -> OpenRun
    requires { o.ended ≤ 65_535 }
    ensures { result ≡ opened_by span o place c.now }
{
    let inside = span_contains(span, c.index);
    open_run(o, place, inside, c.relative, c.advance)
}

// ---- a run's bytes

fn put_run(out: &mut [u8], at: usize, run: Run)
    requires { at + run_size ≤ length out.old }
    ensures { out.new ≡ splice out.old at (run_bytes run) }
{
    let behind = at + RUN_FIRST_BYTES;
    put_number(out, at, RUN_FIRST_BYTES, run.first as u64);
    put_f32(out, behind, run.width);
}

// The run that has ended since `o`, if one has, behind those before it: the first of them stands at `at`.
fn put_ended(out: &mut [u8], at: usize, o: OpenRun, next: OpenRun)
    requires { at + run_size * next.ended ≤ length out.old }
    ensures { out.new ≡ splice out.old (at + run_size * o.ended) (flat_map run_bytes (ended_since o next)) }
{
    let Some(run) = o.run else {
        return;
    };
    if o.ended < next.ended {
        put_run(out, at + RUN_BYTES * o.ended, run);
    }
}

// ---- a span's runs
// That there are fewer than 65,536 clusters is asked here, as in `answer_rows`: no type of a list says it, and elsewhere there may be more.

// How many runs the span has.
pub fn count_runs(span: Span, clusters: &[Cluster]) -> usize
    requires { length clusters.now ≤ 65_535 }
    ensures { (result ≡ length (collect_decoration_spans span clusters.now))
        × (result ≤ length clusters.now) }
{
    let mut o = no_run();
    for (i, c) in clusters.iter().enumerate() {
        o = next_run(o, span, i, c);
    }
    // Behind the last cluster a run ends, as it does outside the span.
    let last = open_run(o, 0, false, false, 0.0);
    last.ended
}

// The span's runs are put from `at` on; how many they are.
pub fn collect_decoration_spans(
    out: &mut [u8],
    at: usize,
    span: Span,
    clusters: &[Cluster],
) -> usize
    requires { (length clusters.now ≤ 65_535)
        × (at + run_size * length (collect_decoration_spans span clusters.now) ≤ length out.old) }
    ensures { let runs = collect_decoration_spans span clusters.now in
        (result ≡ length runs) × (out.new ≡ splice out.old at (flat_map run_bytes runs)) }
{
    let mut o = no_run();
    for (i, c) in clusters.iter().enumerate() {
        let next = next_run(o, span, i, c);
        put_ended(out, at, o, next);
        o = next;
    }
    // Behind the last cluster a run ends, as it does outside the span.
    let last = open_run(o, 0, false, false, 0.0);
    put_ended(out, at, o, last);
    last.ended
}
