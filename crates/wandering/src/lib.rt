// Wandering: all visits of the single sponge, one after another.
#![tactic(auto)]

ghost use Rattle.std.specs.Prelude.{◌*◌, ◌<◌, ◌^◌, length};
ghost use Rattle.settings.specs.Settings.{settings};
ghost use Rattle.settings.specs.Sizes.{visit_words};
ghost use Rattle.columns.specs.Columns.{work};
ghost use Rattle.visits.specs.Visits.{walk};
ghost use Rattle.visits.specs.Wandered.{Ready, Wandered};

use places::Row;
use settings::Parameters;
use visits::{Visited, visit};

// n visits, of which the first has the given rows for its previous ones. The record gets them from its start on. The first is
// called for by itself, so that the compiler leaves a visit a function of its own, which is faster.
pub fn wander(
    s: &mut [u64; 16],
    m: &mut [u64],
    prev0: Row,
    prev1: Row,
    n: usize,
    p: Parameters,
    record: &mut [u64],
) -> Visited
    requires { Ready (settings p) prev0.0 prev1.0 (length m.old) × (n * visit_words (settings p) < 2 ^ 63) × (n * p.columns < 2 ^ 63) }
    ensures { Wandered (settings p) n (walk (work s.old m.old) prev0.0 prev1.0) (walk (work s.new m.new) result.row0.0 result.row1.0) «record».old «record».new result.calls }
{
    if n == 0 {
        return Visited {
            row0: prev0,
            row1: prev1,
            calls: 0,
        };
    }
    let mut last = visit(s, m, prev0, prev1, p, record, 0);
    let mut at = 1 + p.columns;
    for _ in 1..n {
        let next = visit(s, m, last.row0, last.row1, p, record, at);
        last = Visited {
            calls: last.calls + next.calls,
            ..next
        };
        at += 1 + p.columns;
    }
    last
}
