// 24 numbers of 16 bits beside the same numbers in six words of 64 bits, four to a word. Where the words are locals of
// a loop they stay in registers: 24 numbers in memory alone would make each change of them wait for the one before.

#![tactic(auto)]

ghost use Rattle.std.specs.Prelude.{◌+◌, ◌-◌, ◌<◌, ◌≤◌, ◌≡◌, [], length, get_or, replicate};
ghost use Rattle.array_counts.specs.Heights.{Both, Changed};
ghost use Rattle.array_words.specs.Words.{four, word_at, Fits, Combined, CombinedBy, Spread, Written};
ghost use Rattle.array_words.specs.Words.{Small, Held, Unless, Changeable};

// Four numbers as one word, the first lowest.
fn packed(a: u16, b: u16, c: u16, d: u16) -> u64
    ensures { result ≡ four a b c d }
{
    a as u64 + 65536 * (b as u64 + 65536 * (c as u64 + 65536 * d as u64))
}

// The word of the four numbers from place i on.
fn word_at(numbers: &[u16; 24], i: usize) -> u64
    requires { i + 3 < 24 }
    ensures { result ≡ word_at numbers.now i }
{
    packed(numbers[i], numbers[i + 1], numbers[i + 2], numbers[i + 3])
}

// Writes the four numbers of a word from place i on.
fn spread(numbers: &mut [u16; 24], i: usize, word: u64)
    requires { (i + 3 < 24) × (length numbers.old ≡ 24) }
    ensures { Spread numbers.old i word numbers.new }
{
    let second = word / 65536;
    let third = second / 65536;
    let fourth = third / 65536;
    numbers[i] = (word % 65536) as u16;
    numbers[i + 1] = (second % 65536) as u16;
    numbers[i + 2] = (third % 65536) as u16;
    numbers[i + 3] = (fourth % 65536) as u16;
}

// Each word becomes what `op` makes of it and of the word of the line's numbers there.
fn combine<F: Fn(u64, u64) -> u64>(words: &mut [u64; 6], line: &[u16; 24], op: F)
    requires { Fits (F.pre op) words.old line.now }
    ensures { CombinedBy (F.post op) line.now words.old words.new }
{
    for i in 0..6 {
        words[i] = op(words[i], word_at(line, 4 * i));
    }
}

// Each word plus that of the line's numbers.
fn add(words: &mut [u64; 6], line: &[u16; 24])
    requires { Fits (λ w n. w + n < 18446744073709551616) words.old line.now }
    ensures { Combined ◌+◌ line.now words.old words.new }
{
    combine(words, line, |w, n| w + n);
}

// Each word less that of the line's numbers.
fn subtract(words: &mut [u64; 6], line: &[u16; 24])
    requires { Fits (λ w n. n ≤ w) words.old line.now }
    ensures { Combined ◌-◌ line.now words.old words.new }
{
    combine(words, line, |w, n| w - n);
}

// Writes the numbers of six words.
fn write(numbers: &mut [u16; 24], words: &[u64; 6])
    requires { length numbers.old ≡ 24 }
    ensures { Written words.now numbers.old numbers.new }
{
    for i in 0..6 {
        spread(numbers, 4 * i, words[i]);
    }
}

// Six words of no bit.
fn no_bits() -> [u64; 6]
    ensures { result ≡ replicate 6 0 }
{
    [0; 6]
}

// The numbers as words.
pub fn words(numbers: &[u16; 24]) -> [u64; 6]
    requires { Small numbers.now }
    ensures { Held numbers.now result }
{
    let mut held = no_bits();
    add(&mut held, numbers);
    held
}

// As `array_counts::lift`, by line k of a table, with the numbers held as words too. Where line k is told to be sole,
// with a one at k and nothing else, one number is changed, and the words are not kept. `sole` picks no step that a
// caller knows beforehand: it tells what was found of the table, so it stays a bool.
pub fn lift(
    numbers: &mut [u16; 24],
    held: &mut [u64; 6],
    table: &[[u16; 24]; 24],
    k: usize,
    sole: bool,
)
    requires { Changeable k sole table.now numbers.old held.old
        × Both (λ h n. h + n < 65536) numbers.old (get_or table.now k []) }
    ensures lifted { Changed ◌+◌ (get_or table.now k []) numbers.old
        numbers.new }
    ensures held { Unless sole (Held numbers.new held.new) }
{
    if sole {
        numbers[k] += 1;
        return;
    }
    let line = table[k];
    add(held, &line);
    write(numbers, held);
}

// As `array_counts::lower`, in the same way. One function of both would take the operation twice, on a number and on a
// word, and be no plainer.
pub fn lower(
    numbers: &mut [u16; 24],
    held: &mut [u64; 6],
    table: &[[u16; 24]; 24],
    k: usize,
    sole: bool,
)
    requires { Changeable k sole table.now numbers.old held.old
        × Both (λ h n. n ≤ h) numbers.old (get_or table.now k []) }
    ensures lowered { Changed ◌-◌ (get_or table.now k []) numbers.old
        numbers.new }
    ensures held { Unless sole (Held numbers.new held.new) }
{
    if sole {
        numbers[k] -= 1;
        return;
    }
    let line = table[k];
    subtract(held, &line);
    write(numbers, held);
}
