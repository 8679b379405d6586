// What is done with 24 numbers at a time, one for each command: heights of stacks, or counts. Its specs also say what
// the first of 24 with a property is, and how many beads a letter puts on each stack.

#![tactic(auto)]

ghost use Rattle.std.specs.Prelude.{◌+◌, ◌-◌, ◌≤◌, ◌<◌, max, ◌≡◌};
ghost use Rattle.array_counts.specs.Blank.{blank_heights, Ones};
ghost use Rattle.array_counts.specs.Heights.{Both, Changed, ChangedBy, without, at_least};

// A zero in each place: the heights of empty stacks. A function, so that proofs above see its name and not 24 zeros.
#[tactic(auto, unfolding(crate::specs::Blank::blank_heights))]
pub fn blank_heights() -> [u16; 24]
    ensures { result ≡ blank_heights }
{
    [0; 24]
}

// A one in each place. Two functions, since each is told by a definition of its own.
pub fn ones() -> [u16; 24]
    ensures { Ones result }
{
    [1; 24]
}

// Each number becomes what `op` makes of it and of the line's number there.
fn change<F: Fn(u16, u16) -> u16>(numbers: &mut [u16; 24], line: &[u16; 24], op: F)
    requires { Both (F.pre op) numbers.old line.now }
    ensures { ChangedBy (F.post op) line.now numbers.old numbers.new }
{
    for i in 0..24 {
        numbers[i] = op(numbers[i], line[i]);
    }
}

// Each height plus the line's number there.
pub fn lift(heights: &mut [u16; 24], line: &[u16; 24])
    requires { Both (λ h n. h + n < 65536) heights.old line.now }
    ensures { Changed ◌+◌ line.now heights.old heights.new }
{
    change(heights, line, |h, n| h + n);
}

// Each height less the line's number there.
pub fn lower(heights: &mut [u16; 24], line: &[u16; 24])
    requires { Both (λ h n. n ≤ h) heights.old line.now }
    ensures { Changed ◌-◌ line.now heights.old heights.new }
{
    change(heights, line, |h, n| h - n);
}

// Of zeros and ones, leaves a one only where the line has none.
pub fn clear(free: &mut [u16; 24], line: &[u16; 24])
    requires { Both (λ f n. n ≤ 1) free.old line.now }
    ensures { Changed without line.now free.old free.new }
{
    change(free, line, |f, n| f & (1 - n));
}

// The larger of two numbers.
pub fn larger(a: u16, b: u16) -> u16
    ensures { result ≡ max a b }
{
    a.max(b)
}

// Each number is at least so much where the line has a one.
pub fn raise(numbers: &mut [u16; 24], line: &[u16; 24], least: u16)
    requires { Both (λ h n. n ≤ 1) numbers.old line.now }
    ensures { Changed (at_least least) line.now numbers.old numbers.new }
{
    change(numbers, line, |h, n| larger(h, n * least));
}
