// One chain of a catalogue: `walk` follows it and marks two commands, of which one stands in the chain of the other, in
// the rows of both; `mark_like` marks a command as a chain that was walked before.

#![tactic(auto)]

ghost use Rattle.std.specs.Prelude.{◌≡◌, [], get_or, ◌-◌, ◌≤◌};
ghost use Rattle.spec.specs.Catalogue.{commands, records, head, ends, chain};
ghost use Rattle.input_catalogue.specs.Sound.{Sound};
ghost use Rattle.input_chains.specs.Marking.{Shape, InRows, pair, pairs, note, notes, members};

use input_layout::Catalogue;

// Marks that two commands conflict, in the rows of both.
fn mark(a: usize, b: usize, rows: &mut [[u16; 24]; 24])
    requires first { InRows a }
    requires second { InRows b }
    ensures { rows.new ≡ pair rows.old a b }
{
    rows[a - 1][b - 1] = 1;
    rows[b - 1][a - 1] = 1;
}

// Marks that two commands conflict, and notes in row a of own that b stands in the chain of a.
fn meet(a: usize, b: usize, rows: &mut [[u16; 24]; 24], own: &mut [[u16; 24]; 24])
    requires first { InRows a }
    requires second { InRows b }
    ensures rows_after { rows.new ≡ pair rows.old a b }
    ensures own_after { own.new ≡ note own.old a b }
{
    mark(a, b, rows);
    own[a - 1][b - 1] = 1;
}

// Follows the chain of command a, of at most R records, and marks each command that it meets; which they are is also
// noted in row a of own. Tells whether it ends.
// Rows and own stay apart: one is the caller's, one the reader's, and a struct that holds both loans is no plainer.
pub fn walk(c: &Catalogue, a: usize, rows: &mut [[u16; 24]; 24], own: &mut [[u16; 24]; 24]) -> bool
    requires sound { Sound c.now.bytes.now }
    requires shape { Shape rows.old }
    requires own_shape { Shape own.old }
    requires in_range { (1 ≤ a) × (a ≤ commands c.now.bytes.now) }
    ensures value { result ≡ ends c.now.bytes.now (records c.now.bytes.now) (head c.now.bytes.now a) }
    ensures rows_after { rows.new ≡ pairs rows.old a (chain c.now.bytes.now a) }
    ensures own_after { own.new ≡ notes own.old a (chain c.now.bytes.now a) }
{
    let mut at = c.head_of(a);
    for _ in 0..c.layout.records {
        if at == 0 {
            return true;
        }
        meet(a, c.command_of(at), rows, own);
        at = c.next_of(at);
    }
    at == 0
}

// Marks command a as the chain in row b of own tells.
pub fn mark_like(own: &[[u16; 24]; 24], b: usize, a: usize, rows: &mut [[u16; 24]; 24])
    requires own_shape { Shape own.now }
    requires shape { Shape rows.old }
    requires marked { InRows a }
    requires like { InRows b }
    ensures { rows.new ≡ pairs rows.old a (members 0 (get_or own.now (b - 1) [])) }
{
    for (j, flag) in own[b - 1].iter().enumerate() {
        if *flag != 0 {
            mark(a, j + 1, rows);
        }
    }
}
