// Words: at most 64 letters, each at its place. A byte 0 in a word means nothing.

pub type Word = [u8; 64];

// Element i of a word, a plan, a catalogue or a list of numbers, and 0 past the end.
pub fn at<T: Copy + Default + Drop>(list: &[T], i: usize) -> T {
    list.get(i).copied().unwrap_or_default()
}

pub fn undo(a: u8) -> u8 {
    if a == 0 { 0 } else { a ^ 128 }
}
