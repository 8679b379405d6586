// The form of a catalogue, of either edition: `check` decides lines 1, 2, 17, 3 and 4 of the manual's table for any
// bytes, each line over the whole catalogue before the next. The crate spec states the lines (specs/Catalogue.antt). A
// check passes with the number that the caller goes on with, here N.

#![tactic(auto)]

ghost use Rattle.std.specs.Prelude.{◌≡◌, ℕ, Bool, ◌≤◌, MatchOption, IfSome};
ghost use Rattle.std.proofs.Math.Option.{none, some};
ghost use Rattle.spec.specs.Table.{line, number_of, refused as refused_by, first_of};
ghost use Rattle.input_catalogue.specs.Checked.{told_checked};
ghost use Rattle.spec.specs.Catalogue.{records, head_line, next_line, record_line};
ghost use Rattle.input_layout.specs.Laid.{Framed};
ghost use Rattle.input_catalogue.specs.Sound.{Decides, frame_line, sound_line};
ghost use Rattle.input_catalogue.specs.SoundLaws.{wrong_command};

use input_layout::Catalogue;
use spec::{Reason, Refusal};

// The plan of this number is refused, for this reason and at this place; the catalogue counts as plan 0.
pub fn refused(reason: Reason, plan: u8, place: usize) -> Result<usize, Refusal>
    ensures { told_checked result ≡ refused_by (line (number_of reason) plan place) }
{
    Err(Refusal {
        reason,
        plan,
        place,
    })
}

// Lines 1, 2 and 17.
fn framed(c: &Catalogue) -> Result<usize, Refusal>
    ensures { Decides c.now.bytes.now (frame_line c.now.bytes.now) result }
{
    if c.bytes.len() != c.size() {
        return refused(Reason::CatalogueSize, 0, 0);
    }
    if 24 < c.layout.commands {
        return refused(Reason::CommandCount, 0, 0);
    }
    if 1024 < c.layout.records {
        return refused(Reason::RecordCount, 0, 1);
    }
    Ok(c.layout.commands)
}

// The first number from 1 to n that is wrong, if one is.
pub fn first_wrong<F: Fn(usize) -> bool>(n: usize, wrong: F) -> Option<usize>
    requires small { n ≤ 65535 }
    requires callable { (i : ℕ) → 1 ≤ i → i ≤ n → F.pre wrong i }
    ensures first { (p : ℕ → Bool) → ((i : ℕ) (b : Bool) → 1 ≤ i → i ≤ n → F.post wrong i b → b ≡ p i)
        → MatchOption result (first_of p n 1 ≡ none) (λ i. first_of p n 1 ≡ some i) }
    ensures in_range { IfSome result (λ i. (1 ≤ i) × (i ≤ n)) }
{
    // From 0: so the compiled loop has one number that counts, and not two.
    for i in 0..n {
        if wrong(i + 1) {
            return Some(i + 1);
        }
    }
    None
}

// Framed stays a clause: as a type it would be one more struct of the same bytes, which only proofs tell apart.

// Line 3 for the heads.
fn heads(c: &Catalogue) -> Result<usize, Refusal>
    requires { Framed c.now.bytes.now }
    ensures { Decides c.now.bytes.now (head_line c.now.bytes.now) result }
{
    match first_wrong(c.layout.commands, |a| c.layout.records < c.head_of(a)) {
        None => Ok(c.layout.commands),
        Some(a) => refused(Reason::Index, 0, c.head_place(a)),
    }
}

// Line 3 for the records.
fn nexts(c: &Catalogue) -> Result<usize, Refusal>
    requires { Framed c.now.bytes.now }
    ensures { Decides c.now.bytes.now (next_line c.now.bytes.now) result }
{
    match first_wrong(c.layout.records, |j| c.layout.records < c.next_of(j)) {
        None => Ok(c.layout.commands),
        Some(j) => refused(Reason::Index, 0, c.command_place(j) + 1),
    }
}

// Whether the record of number j names no command.
fn names_none(c: &Catalogue, j: usize) -> bool
    requires framed { Framed c.now.bytes.now }
    requires in_range { (1 ≤ j) × (j ≤ records c.now.bytes.now) }
    ensures { result ≡ wrong_command c.now.bytes.now j }
{
    let k = c.command_of(j);
    k == 0 || c.layout.commands < k
}

// Line 4.
fn named(c: &Catalogue) -> Result<usize, Refusal>
    requires { Framed c.now.bytes.now }
    ensures { Decides c.now.bytes.now (record_line c.now.bytes.now) result }
{
    match first_wrong(c.layout.records, |j| names_none(c, j)) {
        None => Ok(c.layout.commands),
        Some(j) => refused(Reason::RecordCommand, 0, c.command_place(j)),
    }
}

// Lines 1, 2, 17, 3 and 4.
pub fn check(c: &Catalogue) -> Result<usize, Refusal>
    ensures { Decides c.now.bytes.now (sound_line c.now.bytes.now) result }
{
    framed(c)?;
    heads(c)?;
    nexts(c)?;
    named(c)
}
