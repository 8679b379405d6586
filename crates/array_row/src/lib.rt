// Long words built in a row: a word appended to what stands in it, as it is or undone, and a part of it undone where it
// stands; whether two words are the same; and rows to work in.

#![tactic(auto)]

ghost use Rattle.std.specs.Prelude.{◌+◌, ◌≤◌, ◌≡◌, true, ◌↔◌, length};
ghost use Rattle.array_row.specs.Row.{Appended, Undone};
ghost use Rattle.spec.specs.Byte.{undo_of};

use input_plan::undo;

// Copies the word behind the first `at` bytes of the row and gives the new end.
pub fn append(row: &mut [u8], at: usize, word: &[u8]) -> usize
    requires { at + length word.now ≤ length row.old }
    ensures { Appended row.old at word.now row.new result }
{
    // Byte by byte: with copy_from_slice the archive for C would ask for memmove.
    for i in 0..word.len() {
        row[at + i] = word[i];
    }
    at + word.len()
}

// As `append`, with the word backwards and each byte undone.
pub fn append_undone(row: &mut [u8], at: usize, word: &[u8]) -> usize
    requires { at + length word.now ≤ length row.old }
    ensures { Appended row.old at (undo_of word.now) row.new result }
{
    for n in 0..word.len() {
        row[at + n] = undo(word[word.len() - 1 - n]);
    }
    at + word.len()
}

// Undoes the row's bytes from one place up to another, where they stand: they are turned round and each is undone.
pub fn undo_between(row: &mut [u8], from: usize, to: usize)
    requires { (from ≤ to) × (to ≤ length row.old) }
    ensures { Undone row.old from to row.new }
{
    // A true while: two places move towards each other.
    let mut i = from;
    let mut j = to;
    while i < j {
        j -= 1;
        let a = undo(row[i]);
        row[i] = undo(row[j]);
        row[j] = a;
        i += 1;
    }
}

// Whether two words are the same. The bits in which bytes differ are gathered, with no way out of the loop, so that
// many bytes are compared at a time: `a == b` was tried, and takes half as long again at equal words of 1,024 bytes.
pub fn same_bytes(a: &[u8], b: &[u8]) -> bool
    ensures { (result ≡ true) ↔ (a.now ≡ b.now) }
{
    if a.len() != b.len() {
        return false;
    }
    let mut differ = 0;
    for (x, y) in a.iter().zip(b) {
        differ |= x ^ y;
    }
    differ == 0
}

// A row to work in, of as many elements as the caller's type says. Its contract tells the length alone, so that no
// caller's proof sees the elements one by one.
pub fn row<T: Copy, const N: usize>(fill: T) -> [T; N]
    ensures { N ≡ length result }
{
    [fill; N]
}
