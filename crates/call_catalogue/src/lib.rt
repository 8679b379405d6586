// The call that reads a catalogue. The crate spec defines what it answers (specs/Calls.antt).

#![tactic(auto)]

ghost use Rattle.std.specs.Prelude.{◌≡◌};
ghost use Rattle.spec.specs.Answers.{told_catalogue};
ghost use Rattle.spec.specs.Calls.{catalogue_answer, catalogue_table};

use spec::Refusal;

// The number of commands of a catalogue. Then conflicts[a - 1][b - 1] is 1 if commands a and b conflict and 0 if not;
// where a line refuses, conflicts is as it was.
pub fn read_catalogue(catalogue: &[u8], conflicts: &mut [[u16; 24]; 24]) -> Result<usize, Refusal>
    ensures answer { told_catalogue result ≡ catalogue_answer catalogue.now }
    ensures table { conflicts.new ≡ catalogue_table catalogue.now conflicts.old }
{
    let mut rows = input_conflicts::blank();
    let commands = input_conflicts::read(catalogue, &mut rows)?;
    *conflicts = rows;
    Ok(commands)
}
