// How many rounds the parts of a core need, where no ring is asked for. A row is worked in behind a place, and what
// stands before that place is kept: no struct of row and place, since each call lends the row anew at another place.

#![tactic(auto)]

ghost use Rattle.std.specs.Prelude.{ℕ, ◌+◌, ◌-◌, ◌<◌, ◌≤◌, max, ◌≡◌, true, List, ◌∷◌, [], ◌↔◌, get_or};
ghost use Rattle.conjugacy_settled_parts.specs.PartOf.{PartOf};
ghost use Rattle.conjugacy_rounds.specs.Apexes.{Apex, apex_at, apexes_from, NextFound, LoneFound};
ghost use Rattle.conjugacy_rounds.specs.Counting.{ApexOf, CoreOf, GroupOf, Counts};

use conjugacy_parts::group;
use conjugacy_settled_parts::settle_part;

// The larger of two numbers.
pub fn larger(a: usize, b: usize) -> usize
    ensures { result ≡ max a b }
{
    a.max(b)
}

// Which commands occur in a core, as flags, and the label of each: the largest command of its part.
#[derive(Clone, Copy)]
pub struct Parts {
    pub flags: [u16; 24],
    pub labels: [u8; 24],
}

impl Parts {
    // Whether command k + 1 is an apex: it occurs, and it is its own label.
    pub fn is_apex(&self, k: usize) -> bool
        requires { k < 24 }
        ensures { (result ≡ true) ↔ Apex self.now.flags self.now.labels k }
    {
        self.flags[k] == 1 && self.labels[k] == (k + 1) as u8
    }

    // The place of the next apex from command k + 1 on.
    fn next_apex(&self, k: usize) -> Option<usize>
        requires { k ≤ 24 }
        ensures { NextFound self.now.flags self.now.labels k result }
    {
        for j in k..24 {
            if self.is_apex(j) {
                return Some(j);
            }
        }
        None
    }

    // The place of the only apex, where there is just one.
    pub fn lone_apex(&self) -> Option<usize>
        ensures { LoneFound self.now.flags self.now.labels result }
    {
        let first = self.next_apex(0)?;
        match self.next_apex(first + 1) {
            Some(_) => None,
            None => Some(first),
        }
    }
}

// Whether command k + 1 is the only one with its label, of those up to it.
fn alone(labels: &[u8; 24], k: usize) -> bool
    requires { k < 24 }
    ensures { (result ≡ true) ↔ ((j : ℕ) → j < k → get_or labels.now j 0 ≡ k + 1 → ⊥) }
{
    let apex = (k + 1) as u8;
    !labels[..k].contains(&apex)
}

// The rounds that the part with this apex needs.
fn part_rounds(
    part: &[u8],
    apex: u8,
    conflicts: &[[u16; 24]; 24],
    row: &mut [u8],
    at: usize,
) -> usize
    requires { (c : List ℕ) × (x : List ℕ) × PartOf c conflicts.now x apex part.now row.old at }
    ensures { (c x : List ℕ)
        → PartOf c conflicts.now x apex part.now row.old at
        → Counts c x (apex ∷ []) 0 row.old row.new at result }
{
    let mut word: [u8; 1024] = array_row::row(0);
    let ends = settle_part(part, apex, conflicts, &mut word, row, at);
    ends.rounds
}

// The same for the part of command k + 1, its apex. A part with one command needs none.
fn apex_rounds(
    part: &[u8],
    labels: &[u8; 24],
    k: usize,
    conflicts: &[[u16; 24]; 24],
    row: &mut [u8],
    at: usize,
) -> usize
    requires { (k < 24) × ((c : List ℕ) × (x : List ℕ)
        × ApexOf c conflicts.now x labels.now k part.now row.old at) }
    ensures { (c x : List ℕ)
        → ApexOf c conflicts.now x labels.now k part.now row.old at
        → Counts c x ((k + 1) ∷ []) 0 row.old row.new at result }
{
    if alone(labels, k) {
        return 0;
    }
    part_rounds(part, labels[k], conflicts, row, at)
}

// A core in which the letters of each part stand together, and where those of each label start.
#[derive(Clone, Copy)]
pub struct Group<'a> {
    pub word: &'a [u8],
    pub starts: &'a [u16; 26],
}

// The same in a grouped core, if command k + 1 is an apex.
fn rounds_at(
    group: &Group<'_>,
    parts: &Parts,
    k: usize,
    conflicts: &[[u16; 24]; 24],
    row: &mut [u8],
    at: usize,
) -> usize
    requires { (k < 24) × ((c : List ℕ) × (x : List ℕ)
        × GroupOf c conflicts.now x group.now.word.now group.now.starts.now parts.now.flags parts.now.labels row.old at) }
    ensures { (c x : List ℕ)
        → GroupOf c conflicts.now x group.now.word.now group.now.starts.now parts.now.flags
        parts.now.labels row.old at
        → Counts c x (apex_at parts.now.flags parts.now.labels k) 0 row.old
        row.new at result }
{
    if !parts.is_apex(k) {
        return 0;
    }
    let from = group.starts[k + 1] as usize;
    let to = group.starts[k + 2] as usize;
    apex_rounds(&group.word[from..to], &parts.labels, k, conflicts, row, at)
}

// The largest number that a part of a grouped core needs whose apex is command k + 1 or a later one, or `most` if that
// is larger.
pub fn group_rounds(
    group: &Group<'_>,
    parts: &Parts,
    k: usize,
    most: usize,
    conflicts: &[[u16; 24]; 24],
    row: &mut [u8],
    at: usize,
) -> usize
    requires { (k ≤ 24) × ((c : List ℕ) × (x : List ℕ)
        × GroupOf c conflicts.now x group.now.word.now group.now.starts.now parts.now.flags parts.now.labels row.old at) }
    ensures { (c x : List ℕ)
        → GroupOf c conflicts.now x group.now.word.now group.now.starts.now parts.now.flags
        parts.now.labels row.old at
        → Counts c x (apexes_from parts.now.flags parts.now.labels (24 - k) k) most
        row.old row.new at result }
{
    let mut found = most;
    for j in k..24 {
        let count = rounds_at(group, parts, j, conflicts, row, at);
        found = larger(found, count);
    }
    found
}

// The largest number that a part needs of a core that is grouped for it, or `most` if that is larger.
fn several_rounds(
    core: &[u8],
    parts: &Parts,
    most: usize,
    conflicts: &[[u16; 24]; 24],
    row: &mut [u8],
    at: usize,
) -> usize
    requires { (c : List ℕ)
        × CoreOf c conflicts.now core.now parts.now.flags parts.now.labels row.old at }
    ensures { (c : List ℕ)
        → CoreOf c conflicts.now core.now parts.now.flags parts.now.labels
        row.old at
        → Counts c core.now (apexes_from parts.now.flags parts.now.labels 24 0) most
        row.old row.new at result }
{
    let mut word: [u8; 1024] = array_row::row(0);
    let starts = group(core, &parts.labels, &mut word);
    let whole = Group {
        word: &word,
        starts: &starts,
    };
    group_rounds(&whole, parts, 0, most, conflicts, row, at)
}

// The largest number that a part of the core needs, or `most` if that is larger. A core with one part is that part.
pub fn most_rounds(
    core: &[u8],
    parts: &Parts,
    most: usize,
    conflicts: &[[u16; 24]; 24],
    row: &mut [u8],
    at: usize,
) -> usize
    requires { (c : List ℕ)
        × CoreOf c conflicts.now core.now parts.now.flags parts.now.labels row.old at }
    ensures { (c : List ℕ)
        → CoreOf c conflicts.now core.now parts.now.flags parts.now.labels
        row.old at
        → Counts c core.now (apexes_from parts.now.flags parts.now.labels 24 0) most
        row.old row.new at result }
{
    let Some(k) = parts.lone_apex() else {
        return several_rounds(core, parts, most, conflicts, row, at);
    };
    let count = apex_rounds(core, &parts.labels, k, conflicts, row, at);
    larger(most, count)
}
