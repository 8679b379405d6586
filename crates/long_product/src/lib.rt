// The product of two words, one behind the other, in normal form: worked out in a row that is as long as it needs be.

#![tactic(auto)]

ghost use Rattle.std.specs.Prelude.{ℕ, ◌+◌, ◌≤◌, List, length};
ghost use Rattle.long_product.specs.Product.{Concatenated, Factors, Multiplied};

use array_row::append;
use long_form::form;

// Puts both words at the start of the row, one behind the other, and gives their end.
fn concatenate(first: &[u8], second: &[u8], row: &mut [u8]) -> usize
    requires { length first.now + length second.now ≤ length row.old }
    ensures { Concatenated first.now second.now row.new result }
{
    let middle = append(row, 0, first);
    append(row, middle, second)
}

// Writes the normal form of first · second into the area and gives its length, for two words of N bytes together at
// most, in a row of its own.
fn product_in<const N: usize>(
    first: &[u8],
    second: &[u8],
    conflicts: &[[u16; 24]; 24],
    area: &mut [u8],
) -> usize
    requires few { N ≤ 50176 }
    requires fits { length first.now + length second.now ≤ N }
    requires factors { (c : List ℕ) × Factors c conflicts.now first.now second.now area.old }
    ensures { Multiplied conflicts.now first.now second.now
        area.old area.new result }
{
    let mut row: [u8; N] = array_row::row(0);
    let end = concatenate(first, second, &mut row);
    form(&row[..end], conflicts, area)
}

// Writes the normal form of first · second into the area and gives its length: in a short row where it suffices, so
// that a short product clears little.
pub fn product(first: &[u8], second: &[u8], conflicts: &[[u16; 24]; 24], area: &mut [u8]) -> usize
    requires { (c : List ℕ) × Factors c conflicts.now first.now second.now area.old }
    ensures { Multiplied conflicts.now first.now second.now
        area.old area.new result }
{
    if first.len() + second.len() <= 2048 {
        product_in::<2048>(first, second, conflicts, area)
    } else {
        product_in::<50176>(first, second, conflicts, area)
    }
}
