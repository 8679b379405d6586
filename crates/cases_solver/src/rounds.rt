// Rounds: how often the parts of two cores are turned until they are settled, letter by letter. A part is a word with
// the letters of the core that hang together, each at its place there.

ghost use Rattle.std.specs.Prelude.{◌<◌};

use crate::catalogue::tied;
use crate::conjugacy::core;
use crate::word::Word;

// Is a letter tied to one of the word.
fn ties(c: &[u8], word: &Word, a: u8) -> bool {
    word.iter().any(|b| tied(c, a, *b))
}

// A part with those letters of the word that are tied to one of it.
fn spread(c: &[u8], word: &Word, part: &Word) -> Word {
    let mut wider = *part;
    for i in 0..64 {
        if ties(c, &wider, word[i]) {
            wider[i] = word[i];
        }
    }
    wider
}

// The part of the letter at place i: each turn takes a command more in, or there is none to take.
fn part_of(c: &[u8], word: &Word, i: usize) -> Word
    requires { i < 64 }
{
    let mut part = [0; 64];
    part[i] = word[i];
    for _turn in 0..64 {
        let wider = spread(c, word, &part);
        if wider == part {
            break;
        }
        part = wider;
    }
    part
}

// The largest command of a part.
fn apex_of(part: &Word) -> u8 {
    part.iter().map(|a| *a % 128).max().unwrap_or(0)
}

// p1: the letters that are apex letters or tied to one of p1 before them.
fn stays(c: &[u8], part: &Word, apex: u8) -> Word {
    let mut p1 = [0; 64];
    for i in 0..64 {
        if part[i] % 128 == apex || ties(c, &p1, part[i]) {
            p1[i] = part[i];
        }
    }
    p1
}

// p1, then what it leaves of the part, with no gaps.
fn turned(part: &Word, p1: &Word) -> Word {
    let mut word = [0; 64];
    let left = part
        .iter()
        .zip(p1)
        .filter(|(_, b)| **b == 0)
        .map(|(a, _)| a);
    let letters = p1.iter().chain(left).filter(|a| **a != 0);
    for (to, a) in word.iter_mut().zip(letters) {
        *to = *a;
    }
    word
}

// The rounds that a part needs; no part needs 64.
fn rounds_of_part(c: &[u8], part: &Word) -> usize {
    let apex = apex_of(part);
    let mut word = *part;
    for rounds in 0..64 {
        let p1 = stays(c, &word, apex);
        if word == p1 {
            return rounds;
        }
        word = turned(&word, &p1);
    }
    64
}

// The rounds that the part of the letter at place i needs.
fn rounds_at(c: &[u8], word: &Word, i: usize) -> usize
    requires { i < 64 }
{
    if word[i] == 0 {
        return 0;
    }
    rounds_of_part(c, &part_of(c, word, i))
}

// The largest number of rounds that a part of a plan's core needs.
fn rounds_of_core(c: &[u8], plan: &[u8]) -> usize {
    let word = core(c, plan).letters;
    let mut most: usize = 0;
    for i in 0..64 {
        most = most.max(rounds_at(c, &word, i));
    }
    most
}

// The largest number of rounds that a part of either core needs.
pub fn most_rounds(c: &[u8], v: &[u8], w: &[u8]) -> usize {
    rounds_of_core(c, v).max(rounds_of_core(c, w))
}
