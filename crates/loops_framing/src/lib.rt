// The input of the program loops: a catalogue of either edition, then two plans, each behind a count in two bytes, low
// byte first, and nothing after. The crate spec says what is well framed and where the parts lie (specs/Framing.antt).

#![tactic(auto)]

ghost use Rattle.std.specs.Prelude.{◌+◌, ◌≤◌, ◌≡◌};
ghost use Rattle.spec.specs.Framing.{plan_end};
ghost use Rattle.loops_framing.specs.Frame.{frame};

use input_layout::{Catalogue, pair_at};

// Where the counts of the two plans stand; the catalogue lies before the first.
#[derive(Clone, Copy)]
pub struct Places {
    pub first: usize,
    pub second: usize,
}

// Where the plan ends whose count stands at place i.
fn plan_end(s: &[u8], i: usize) -> usize
    requires { i ≤ 1000000 }
    ensures end { result ≡ plan_end s.now i }
    ensures near { result ≤ i + 65537 }
{
    i + 2 + pair_at(s, i)
}

// The places of an input that is well framed.
pub fn framed(s: &[u8]) -> Option<Places>
    ensures { result ≡ frame s.now }
{
    if 8192 < s.len() {
        return None;
    }
    let first = Catalogue::of(s).size();
    let second = plan_end(s, first);
    if plan_end(s, second) != s.len() {
        return None;
    }
    Some(Places { first, second })
}
