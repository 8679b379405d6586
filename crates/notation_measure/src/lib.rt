// How long the plan is that a sequence writes out, cut off past 1,024, and its first command above N, in one pass: a
// reader of sequences and a reader of items that call each other, at most as deep as brackets nest.

#![tactic(auto)]

ghost use Rattle.std.specs.Prelude.{◌*◌, ◌≤◌, ◌<◌, ◌≡◌, true, length, drop};
ghost use Rattle.spec.specs.Plan.{passes};
ghost use Rattle.spec.specs.Notation.{tokens};
ghost use Rattle.notation_laws.specs.Here.{Here, goes_on};
ghost use Rattle.notation_measure.specs.Measured.{capped as cappedTo, Measured, Part, Joined};
ghost use Rattle.notation_measure.specs.Measured.{Grouped, CommandNumber, Commanded};

// A part of a text: the length of what it writes out, at most 1,025; how many bytes of the text are left at the first
// digit of its first command above N, if there is one; the place behind it.
#[derive(Clone, Copy)]
pub struct Measure {
    pub size: usize,
    pub above: Option<usize>,
    pub end: usize,
}

// A length cut off past 1,024: a function, since the laws speak of it by name (`capped`, specs/Measured.antt).
fn capped(n: usize) -> usize
    ensures { result ≡ cappedTo n }
{
    n.min(1025)
}

// Whether the check of plans lets this command pass, with so many commands.
fn known(k: u8, commands: usize) -> bool
    ensures { result ≡ passes commands k }
{
    input_plan::check(&[k], commands, 1, 1).is_ok()
}

// Two parts, one behind the other.
fn joined(a: Measure, b: Measure) -> Measure
    requires { (a.size ≤ 1025) × (b.size ≤ 1025) }
    ensures { Joined a b result }
{
    Measure {
        size: capped(a.size + b.size),
        above: a.above.or(b.above),
        end: b.end,
    }
}

// A group, from what stands in its brackets, its count, and the place behind it.
fn grouped(inner: Measure, count: usize, end: usize) -> Measure
    requires { count * inner.size ≤ 255 * 1025 }
    ensures { Grouped inner count end result }
{
    Measure {
        size: capped(count * inner.size),
        above: inner.above,
        end,
    }
}

// A command whose digits begin at `at`, where so many bytes are left.
fn command(text: &[u8], at: usize, left: usize, commands: usize) -> Measure
    requires { CommandNumber (drop at (tokens text.now)) }
    ensures { Commanded commands text.now at left result }
{
    let n = notation_parts::number_at(text, at);
    let above = if known(n.value as u8, commands) {
        None
    } else {
        Some(left)
    };
    Measure {
        size: 1,
        above,
        end: n.end,
    }
}

// What stands first in a sequence: a blank or an item.
#[cycle(item_items)]
fn item(text: &[u8], at: usize, commands: usize, nesting: usize) -> Measure
    requires { (Here (drop at (tokens text.now)) nesting) × (goes_on (drop at (tokens text.now)) ≡ true) }
    ensures part { (h : Here (drop at (tokens text.now)) nesting)
        → Part commands text.now at nesting h result }
    ensures at_lt_end { at < result.end }
{
    if notation_parts::stands(text, at, b' ') {
        return Measure {
            size: 0,
            above: None,
            end: at + 1,
        };
    }
    let from = notation_parts::past_minus(text, at);
    if !notation_parts::stands(text, from, b'(') {
        let left = text.len() - from;
        return command(text, from, left, commands);
    }
    let inner = items(text, from + 1, commands, nesting - 1);
    let count = notation_parts::number_at(text, inner.end + 1);
    grouped(inner, count.value, count.end)
}

// A sequence, up to the text's end or to the closing bracket before which it ends.
#[cycle(item_items)]
pub fn items(text: &[u8], at: usize, commands: usize, nesting: usize) -> Measure
    requires { (Here (drop at (tokens text.now)) nesting) × (at ≤ length text.now) }
    ensures { (h : Here (drop at (tokens text.now)) nesting)
        → Measured commands text.now at nesting h result }
{
    let mut all = Measure {
        size: 0,
        above: None,
        end: at,
    };
    // No count: the place moves by as much as an item takes.
    while notation_parts::goes_on(text, all.end) {
        all = joined(all, item(text, all.end, commands, nesting));
    }
    all
}
