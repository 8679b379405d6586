// The letters left of a plan, in the order of the plan: those that cancelled are blanked, and of each command as many
// are taken off in front, and as many behind, as pairs were taken off.

#![tactic(auto)]

ghost use Rattle.std.specs.Prelude.{ℕ, ◌≤◌, ◌<◌, ◌≡◌, List, [], reverse, length};
ghost use Rattle.theory_words.specs.All.{All};
ghost use Rattle.piling_left.specs.Left.{blanked, total, trimmed, Tallied, Closed, TakenOff, Known, Left};

// Puts fillers in place of the letters at these places.
fn blank(word: &mut [u8], places: &[u16])
    requires { All (λ p. p < length word.old) places.now }
    ensures { word.new ≡ blanked word.old places.now }
{
    for &place in places {
        word[place as usize] = 0;
    }
}

// A zero for each command that a byte can tell. Not array_row::row: its contract tells the length alone.
fn no_letters() -> [u16; 128]
    ensures { Tallied [] result }
{
    [0; 128]
}

// How many letters of each command a word has.
fn tally(word: &[u8]) -> [u16; 128]
    requires { length word.now < 65536 }
    ensures { Tallied word.now result }
{
    let mut counts = no_letters();
    for &byte in word {
        let k = (byte % 128) as usize;
        counts[k] += 1;
    }
    counts
}

// Puts fillers in place of the first letters of each command, so many, and so many in all: then the rest stays.
fn trim_front(word: &mut [u8], counts: [u16; 128], all: usize)
    requires { total counts ≡ all }
    ensures { word.new ≡ trimmed counts word.old }
{
    let mut left = counts;
    let mut more = all;
    for byte in word.iter_mut() {
        if more == 0 {
            return;
        }
        let k = (*byte % 128) as usize;
        if left[k] != 0 {
            left[k] -= 1;
            more -= 1;
            *byte = 0;
        }
    }
}

// The same with the last letters. Not one function over an iterator of bytes: forward and back the proofs split the word
// at another end, so it would be no plainer.
fn trim_back(word: &mut [u8], counts: [u16; 128], all: usize)
    requires { total counts ≡ all }
    ensures { word.new ≡ reverse (trimmed counts (reverse word.old)) }
{
    let mut left = counts;
    let mut more = all;
    for i in (0..word.len()).rev() {
        if more == 0 {
            return;
        }
        let k = (word[i] % 128) as usize;
        if left[k] != 0 {
            left[k] -= 1;
            more -= 1;
            word[i] = 0;
        }
    }
}

// Moves the letters of a word up to its start, and tells how many they are. By index, since it writes the word it reads.
fn close_up(word: &mut [u8]) -> usize
    ensures { Closed word.old word.new result }
{
    let mut n = 0;
    for i in 0..word.len() {
        let a = word[i];
        word[n] = a;
        if a != 0 {
            n += 1;
        }
    }
    n
}

// Takes these letters off in front, and their undos behind, by their commands: what is left is what the taking off of
// pairs leaves.
fn trim(word: &mut [u8], off: &[u8])
    requires { length off.now < 65536 }
    ensures { TakenOff off.now word.old word.new }
{
    if off.len() == 0 {
        return;
    }
    let counts = tally(off);
    trim_front(word, counts, off.len());
    trim_back(word, counts, off.len());
}

// As `letters_left`, where the plan stands.
fn leave(word: &mut [u8], places: &[u16], off: &[u8]) -> usize
    requires { (c : List ℕ) × (z : List ℕ) × Known c word.old places.now off.now z }
    ensures { (c z : List ℕ) → Known c word.old places.now off.now z
        → Left c z word.new result }
{
    blank(word, places);
    trim(word, off);
    close_up(word)
}

// Writes the letters left of a plan to the start of the area, in the order of the plan, and tells how many they are.
// places are those of the plan's pairs, and off the letters taken off in front of what the pairs leave.
pub fn letters_left(plan: &[u8], places: &[u16], off: &[u8], area: &mut [u8]) -> usize
    requires { (c : List ℕ) × (z : List ℕ) × Known c plan.now places.now off.now z
        × (length plan.now ≤ length area.old) }
    ensures { (c z : List ℕ) → Known c plan.now places.now off.now z
        → Left c z area.new result }
{
    let n = array_row::append(area, 0, plan);
    leave(&mut area[..n], places, off)
}
