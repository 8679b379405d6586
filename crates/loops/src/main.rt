// Reads a catalogue and two plans from standard input and prints whether the two loops are joined, apart or refused.
// The crate spec says which answer an input gets, what is well framed and what is printed (specs/Program.antt,
// specs/Framing.antt, specs/Listing.antt).

#![tactic(auto)]

ghost use Rattle.std.specs.Prelude.{◌≡◌, ◌≤◌, length, take};
ghost use Rattle.spec.specs.Table.{line, line_of};
ghost use Rattle.io.specs.Counts.{IsPrefixLen};
ghost use Rattle.spec.specs.Listing.{told_verdict, Printed};
ghost use Rattle.spec.specs.Program.{loops_verdict, program_answer};
ghost use Rattle.loops.specs.CoreVerdict.{core_verdict};

use spec::{Reason, Refusal};

// Line 11.
fn badly_framed() -> Refusal
    ensures { line_of result ≡ line 11 0 0 }
{
    Refusal {
        reason: Reason::Framing,
        plan: 0,
        place: 0,
    }
}

// Joined, with the number of letters in the core of v.
fn joined(catalogue: &[u8], v: &[u8]) -> Result<Option<usize>, Refusal>
    ensures { told_verdict result ≡ core_verdict catalogue.now v.now }
{
    // room for the core of the longest plan
    let mut area: [u8; 1024] = array_row::row(0);
    let letters = busplan::core(catalogue, v, &mut area)?;
    Ok(Some(letters))
}

// The verdict on two loops.
fn decide(catalogue: &[u8], v: &[u8], w: &[u8]) -> Result<Option<usize>, Refusal>
    ensures { told_verdict result ≡ loops_verdict catalogue.now v.now w.now }
{
    // room for every lead-in: 24 × 2,048 bytes
    let mut area: [u8; 49152] = array_row::row(0);
    let decided = busplan::loops(catalogue, v, w, &mut area)?;
    match decided.lead_in {
        Some(_) => joined(catalogue, v),
        None => Ok(None),
    }
}

// The verdict on an input.
fn answer(input: &[u8]) -> Result<Option<usize>, Refusal>
    ensures { told_verdict result ≡ program_answer input.now }
{
    match loops_framing::framed(input) {
        None => Err(badly_framed()),
        Some(places) => {
            let first = places.first;
            let second = places.second;
            decide(
                &input[..first],
                &input[first + 2..second],
                &input[second + 2..],
            )
        }
    }
}

// What is printed for an input, at the start of out.
fn print(input: &[u8], out: &mut [u8]) -> usize
    requires { 79 ≤ length out.old }
    ensures text { Printed (program_answer input.now) (take result out.new) }
    ensures room { IsPrefixLen result out.new }
{
    loops_listing::put(out, answer(input))
}

fn main() {
    // room for the longest input, and one byte to tell a longer one
    let mut input: [u8; 8193] = array_row::row(0);
    let n = io::read_full(0, &mut input);
    let mut out = [0u8; 79];
    let l = print(&input[..n], &mut out);
    io::write_all(1, &out[..l]);
}
