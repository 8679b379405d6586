// Whether two cores are joined, and the lead-in from one to the other: the lead-ins of their parts, one after the
// other, behind what stands in a row. No struct of row and place, since each part is lent the row at another place.

#![tactic(auto)]

ghost use Rattle.std.specs.Prelude.{ℕ, ◌+◌, ◌-◌, ◌<◌, ◌≡◌, List};
ghost use Rattle.spec.specs.Letters.{alphabet};
ghost use Rattle.theory_conjugacy.specs.Part.{apexes};
ghost use Rattle.conjugacy_rounds.specs.Apexes.{apex_at, apexes_from};
ghost use Rattle.conjugacy_of_parts.specs.Parts.{both_rounds, PartsOutcome};
ghost use Rattle.conjugacy_of_cores.specs.Pair.{Groups, Joinable, Placeable, Coreable, CoresOutcome};

use array_row::same_bytes;
use conjugacy_commands::{occurring, same_commands};
use conjugacy_labels::labels;
use conjugacy_of_parts::{Outcome, join_part};
use conjugacy_parts::group;
use conjugacy_rounds::{Group, Parts, group_rounds, larger, most_rounds};

// Whether the part of command k + 1 is joined, and its lead-in behind the first bytes of the row. A command that does
// not occur or is not the apex of its part has nothing to join.
fn join_at(
    one: &Group<'_>,
    two: &Group<'_>,
    parts: &Parts,
    k: usize,
    conflicts: &[[u16; 24]; 24],
    row: &mut [u8],
    at: usize,
) -> Outcome
    requires { (k < 24) × ((c : List ℕ) × (x : List ℕ) × (y : List ℕ)
        × Groups c x y one.now.word.now one.now.starts.now two.now.word.now two.now.starts.now
        × Placeable c conflicts.now x y parts.now.flags parts.now.labels k row.old at) }
    ensures { (c x y : List ℕ)
        → Groups c x y one.now.word.now one.now.starts.now two.now.word.now two.now.starts.now
        → Placeable c conflicts.now x y parts.now.flags parts.now.labels k row.old at
        → PartsOutcome c x y (apex_at parts.now.flags parts.now.labels k) row.old at
        row.new result }
{
    if !parts.is_apex(k) {
        return Outcome {
            end: Some(at),
            rounds: 0,
        };
    }
    let from1 = one.starts[k + 1] as usize;
    let to1 = one.starts[k + 2] as usize;
    let from2 = two.starts[k + 1] as usize;
    let to2 = two.starts[k + 2] as usize;
    join_part(
        &one.word[from1..to1],
        &two.word[from2..to2],
        parts.labels[k],
        conflicts,
        row,
        at,
    )
}

// The most rounds that a part of either core takes, of those whose apex comes after command k + 1.
fn rest_rounds(
    one: &Group<'_>,
    two: &Group<'_>,
    parts: &Parts,
    k: usize,
    conflicts: &[[u16; 24]; 24],
    row: &mut [u8],
    at: usize,
) -> usize
    requires { (k < 24) × ((c : List ℕ) × (x : List ℕ) × (y : List ℕ)
        × Groups c x y one.now.word.now one.now.starts.now two.now.word.now two.now.starts.now
        × Joinable c conflicts.now x y parts.now.flags parts.now.labels row.old at) }
    ensures { (c x y : List ℕ)
        → Groups c x y one.now.word.now one.now.starts.now two.now.word.now two.now.starts.now
        → Joinable c conflicts.now x y parts.now.flags parts.now.labels row.old at
        → result ≡ both_rounds c (apexes_from parts.now.flags parts.now.labels (24 - (k + 1)) (k + 1)) x y }
{
    let most = group_rounds(one, parts, k + 1, 0, conflicts, row, at);
    group_rounds(two, parts, k + 1, most, conflicts, row, at)
}

// Whether all parts are joined, and their lead-ins, one after the other. Where one is apart, the parts behind it are
// still counted.
fn join_parts(
    one: &Group<'_>,
    two: &Group<'_>,
    parts: &Parts,
    conflicts: &[[u16; 24]; 24],
    row: &mut [u8],
    at: usize,
) -> Outcome
    requires { (c : List ℕ) × (x : List ℕ) × (y : List ℕ)
        × Groups c x y one.now.word.now one.now.starts.now two.now.word.now two.now.starts.now
        × Joinable c conflicts.now x y parts.now.flags parts.now.labels row.old at }
    ensures { (c x y : List ℕ)
        → Groups c x y one.now.word.now one.now.starts.now two.now.word.now two.now.starts.now
        → Joinable c conflicts.now x y parts.now.flags parts.now.labels row.old at
        → PartsOutcome c x y (apexes (alphabet c) x) row.old at row.new result }
{
    let mut end = at;
    let mut most = 0;
    for k in 0..24 {
        let way = join_at(one, two, parts, k, conflicts, row, end);
        most = larger(most, way.rounds);
        let Some(next) = way.end else {
            let rest = rest_rounds(one, two, parts, k, conflicts, row, at);
            return Outcome {
                end: None,
                rounds: larger(rest, most),
            };
        };
        end = next;
    }
    Outcome {
        end: Some(end),
        rounds: most,
    }
}

// Whether two cores with several parts are joined, and the lead-in behind the first bytes of the row: none where they
// are the same when they are grouped.
fn join_groups(
    core1: &[u8],
    core2: &[u8],
    parts: &Parts,
    conflicts: &[[u16; 24]; 24],
    row: &mut [u8],
    at: usize,
) -> Outcome
    requires { (c : List ℕ)
        × Joinable c conflicts.now core1.now core2.now parts.now.flags parts.now.labels row.old at }
    ensures { (c : List ℕ)
        → Joinable c conflicts.now core1.now core2.now parts.now.flags parts.now.labels row.old at
        → CoresOutcome c core1.now core2.now row.old at row.new result }
{
    let mut word1: [u8; 1024] = array_row::row(0);
    let mut word2: [u8; 1024] = array_row::row(0);
    let starts1 = group(core1, &parts.labels, &mut word1);
    let starts2 = group(core2, &parts.labels, &mut word2);
    let one = Group {
        word: &word1,
        starts: &starts1,
    };
    let two = Group {
        word: &word2,
        starts: &starts2,
    };
    if same_bytes(&word1[..core1.len()], &word2[..core2.len()]) {
        let count = group_rounds(&one, parts, 0, 0, conflicts, row, at);
        return Outcome {
            end: Some(at),
            rounds: count,
        };
    }
    join_parts(&one, &two, parts, conflicts, row, at)
}

// Whether two cores are joined, and the lead-in behind the first bytes of the row: none where they are the same. Cores
// in which other commands occur are apart. The parts of both are counted in any case, once where they are the same.
// Cores with one part are that part.
pub fn join_cores(
    core1: &[u8],
    core2: &[u8],
    conflicts: &[[u16; 24]; 24],
    row: &mut [u8],
    at: usize,
) -> Outcome
    requires { (c : List ℕ) × Coreable c conflicts.now core1.now core2.now row.old at }
    ensures { (c : List ℕ)
        → Coreable c conflicts.now core1.now core2.now row.old at
        → CoresOutcome c core1.now core2.now row.old at row.new result }
{
    let flags = occurring(core1);
    let names = labels(&flags, conflicts);
    let parts = Parts {
        flags,
        labels: names,
    };
    if same_bytes(core1, core2) {
        let once = most_rounds(core1, &parts, 0, conflicts, row, at);
        return Outcome {
            end: Some(at),
            rounds: once,
        };
    }
    let others = occurring(core2);
    if !same_commands(&flags, &others) {
        let one = most_rounds(core1, &parts, 0, conflicts, row, at);
        let two = Parts {
            flags: others,
            labels: labels(&others, conflicts),
        };
        let both = most_rounds(core2, &two, one, conflicts, row, at);
        return Outcome {
            end: None,
            rounds: both,
        };
    }
    let Some(k) = parts.lone_apex() else {
        return join_groups(core1, core2, &parts, conflicts, row, at);
    };
    join_part(core1, core2, parts.labels[k], conflicts, row, at)
}
