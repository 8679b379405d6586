// The call that writes out the plan of a text in the beacon team's notation, and the call that tells what is wrong with
// a text. The crate spec defines what each answers (specs/WriteOut.antt). Catalogues and commands are judged by the
// checks that every other call goes through.

#![tactic(auto)]

ghost use Rattle.std.specs.Prelude.{◌≡◌, [], ◌∷◌};
ghost use Rattle.spec.specs.Table.{first_line, or_else};
ghost use Rattle.spec.specs.Answers.{told_written, told_fault};
ghost use Rattle.spec.specs.Notation.{size_of};
ghost use Rattle.spec.specs.WriteOut.{items_of, above_line, written_line, text_lines, text_fault};
ghost use Rattle.spec.specs.WriteOut.{write_out_answer, write_out_area};
ghost use Rattle.input_catalogue.specs.Checked.{told_checked};
ghost use Rattle.notation_write_out.specs.Scanned.{Scanned};

use input_catalogue::refused;
use spec::{Reason, Refusal};

// Lines 8 and 15 for a text that has passed lines 13 and 14; one that passes gives the length of the plan.
fn measured(text: &[u8], commands: usize) -> Result<usize, Refusal>
    requires { Scanned text.now }
    ensures { told_checked result ≡ or_else (first_line (above_line commands text.now
        ∷ written_line text.now ∷ [])) (size_of (items_of text.now)) }
{
    let measure = notation_measure::items(text, 0, commands, 8);
    if let Some(left) = measure.above {
        return refused(Reason::PlanByte, 1, text.len() - left);
    }
    if 1024 < measure.size {
        return refused(Reason::WrittenSize, 1, 0);
    }
    Ok(measure.size)
}

// All lines of a text but that of the area; one that passes gives the length of the plan.
fn checked(catalogue: &[u8], text: &[u8]) -> Result<usize, Refusal>
    ensures { told_checked result ≡ or_else (first_line (text_lines catalogue.now text.now))
        (size_of (items_of text.now)) }
{
    let mut conflicts = input_conflicts::blank();
    let commands = input_conflicts::read(catalogue, &mut conflicts)?;
    notation_scanner::scan(text)?;
    measured(text, commands)
}

// The plan that a text writes out, written at the start of area.
pub fn write_out(catalogue: &[u8], text: &[u8], area: &mut [u8]) -> Result<usize, Refusal>
    ensures answer { told_written result
        ≡ write_out_answer catalogue.now text.now area.old }
    ensures bytes { area.new
        ≡ write_out_area catalogue.now text.now area.old }
{
    let size = checked(catalogue, text)?;
    if area.len() < size {
        return Err(input_checks::small_area(0));
    }
    notation_writer::items(text, 0, 8, area, 0);
    Ok(size)
}

// What is wrong with a catalogue and a text, whatever the area.
pub fn text_fault(catalogue: &[u8], text: &[u8]) -> Option<Refusal>
    ensures { told_fault result ≡ text_fault catalogue.now text.now }
{
    checked(catalogue, text).err()
}
