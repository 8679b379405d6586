// Reading a catalogue of either edition: `read` decides lines 1 to 6 and 17 of the manual's table for any bytes and,
// where none holds, leaves the conflicts in the rows. A chain that several commands have is walked once.

#![tactic(auto)]

ghost use Rattle.std.specs.Prelude.{◌≡◌, true, ◌+◌, ◌-◌, ◌<◌, ◌≤◌, length};
ghost use Rattle.std.proofs.Math.Option.{none};
ghost use Rattle.spec.specs.Catalogue.{commands, records, head, ends, endless_line, own_line};
ghost use Rattle.input_layout.specs.Laid.{Framed};
ghost use Rattle.input_catalogue.specs.Sound.{Decides, Sound};
ghost use Rattle.input_conflicts.specs.MarkedRows.{Blank, Met, diagonal as diagonalOf};
ghost use Rattle.input_conflicts.specs.Known.{NoneKnown, Chained, Known};
ghost use Rattle.input_conflicts.specs.Reading.{Reading};

use input_catalogue::{first_wrong, refused};
use input_chains::{mark_like, walk};
use input_layout::Catalogue;
use spec::{Reason, Refusal};

// The chain of command a: walked, or marked as that of the first command with the same head. Tells whether it ends.
fn chain_of(
    c: &Catalogue,
    a: usize,
    rows: &mut [[u16; 24]; 24],
    own: &mut [[u16; 24]; 24],
    firsts: &mut [u8],
) -> bool
    requires sound { Sound c.now.bytes.now }
    requires chained { Chained c.now.bytes.now a rows.old }
    requires known { Known c.now.bytes.now a own.old firsts.old }
    requires in_range { (1 ≤ a) × (a ≤ commands c.now.bytes.now) }
    ensures value { result ≡ ends c.now.bytes.now (records c.now.bytes.now) (head c.now.bytes.now a) }
    ensures chained { result ≡ true → Chained c.now.bytes.now (a + 1) rows.new }
    ensures known { result ≡ true → Known c.now.bytes.now (a + 1) own.new firsts.new }
{
    let h = c.head_of(a);
    let b = firsts[h] as usize;
    if b != 0 {
        mark_like(own, b, a, rows);
        return true;
    }
    firsts[h] = a as u8;
    walk(c, a, rows, own)
}

// Line 5.
fn each_chain(
    c: &Catalogue,
    rows: &mut [[u16; 24]; 24],
    own: &mut [[u16; 24]; 24],
    firsts: &mut [u8],
) -> Result<usize, Refusal>
    requires sound { Sound c.now.bytes.now }
    requires blank { Blank rows.old }
    requires own_blank { Blank own.old }
    requires none_known { NoneKnown firsts.old }
    requires room { records c.now.bytes.now < length firsts.old }
    ensures decides { Decides c.now.bytes.now (endless_line c.now.bytes.now) result }
    ensures met { endless_line c.now.bytes.now ≡ none → Met c.now.bytes.now rows.new }
{
    // A copy: behind the loan the compiler would read the layout anew after each mark.
    let c = *c;
    for a in 1..c.layout.commands + 1 {
        if !chain_of(&c, a, rows, own, firsts) {
            let place = c.head_place(a);
            return refused(Reason::EndlessChain, 0, place);
        }
    }
    Ok(c.layout.commands)
}

// Line 6: a command that stands in its own chain is marked against itself.
fn own_chain(c: &Catalogue, rows: &[[u16; 24]; 24]) -> Result<usize, Refusal>
    requires framed { Framed c.now.bytes.now }
    requires met { Met c.now.bytes.now rows.now }
    ensures { Decides c.now.bytes.now (own_line c.now.bytes.now) result }
{
    match first_wrong(c.layout.commands, |a| rows[a - 1][a - 1] != 0) {
        None => Ok(c.layout.commands),
        Some(a) => refused(Reason::OwnChain, 0, c.head_place(a)),
    }
}

// Marks every command against itself.
fn diagonal(rows: &mut [[u16; 24]; 24])
    ensures { rows.new ≡ diagonalOf rows.old 24 }
{
    for (i, row) in rows.iter_mut().enumerate() {
        row[i] = 1;
    }
}

// Rows to lend to read.
pub fn blank() -> [[u16; 24]; 24]
    ensures { Blank result }
{
    [[0; 24]; 24]
}

// No command known for any head below N, which 0 stands for.
// No Option: commands count from 1 in the manual, so that 0 is free, and an Option would be twice the bytes to clear.
fn none_known<const N: usize>() -> [u8; N]
    ensures none { NoneKnown result }
    ensures long { length result ≡ N }
{
    [0; N]
}

// Line 5, with room for the heads that R records can have.
fn chains(c: &Catalogue, rows: &mut [[u16; 24]; 24]) -> Result<usize, Refusal>
    requires sound { Sound c.now.bytes.now }
    requires blank { Blank rows.old }
    ensures decides { Decides c.now.bytes.now (endless_line c.now.bytes.now) result }
    ensures met { endless_line c.now.bytes.now ≡ none → Met c.now.bytes.now rows.new }
{
    let mut own = blank();
    if c.layout.records < 256 {
        let mut firsts = none_known::<256>();
        return each_chain(c, rows, &mut own, &mut firsts);
    }
    let mut firsts = none_known::<1025>();
    each_chain(c, rows, &mut own, &mut firsts)
}

// Reads a catalogue of any bytes. Ok carries N, and then the rows hold the conflicts.
pub fn read(catalogue: &[u8], conflicts: &mut [[u16; 24]; 24]) -> Result<usize, Refusal>
    requires { Blank conflicts.old }
    ensures { Reading catalogue.now conflicts.new result }
{
    let c = Catalogue::of(catalogue);
    input_catalogue::check(&c)?;
    chains(&c, conflicts)?;
    let commands = own_chain(&c, conflicts)?;
    diagonal(conflicts);
    Ok(commands)
}
