// Lists of places at random, for a normal form of so many letters. That a list may be wrong is a property of it, which
// its end and its size look at, as `second` tells of a place where it stands in its pair: neither picks a step.

ghost use Rattle.std.specs.Prelude.{◌<◌, ◌≤◌, length};

use cases_random::Random;

// The places that are drawn are below this: those of the letters, and if the list may be wrong now and then others.
fn end(random: &mut Random, letters: usize, wrong: bool) -> usize
    requires { letters < 256 }
    ensures { (0 < result) × (result ≤ 65536) }
{
    match random.draw(4) {
        0 if wrong => 65536,
        1 if wrong => letters + 1,
        _ => letters.max(1),
    }
}

// The size of a list; one that may be wrong may be odd.
fn size(random: &mut Random, wrong: bool) -> usize
    ensures { result ≤ 8 }
{
    if wrong {
        random.draw(8)
    } else {
        2 * random.draw(4)
    }
}

// A place; the second of a pair is drawn twice, and the later of the two is taken.
fn place(random: &mut Random, end: usize, second: bool) -> usize
    requires { (0 < end) × (end ≤ 65536) }
    ensures { result < 65536 }
{
    let p = random.draw(end);
    if second { p.max(random.draw(end)) } else { p }
}

// A list of places at random, at the start of this room.
pub fn random_list<'a>(
    random: &mut Random,
    room: &'a mut [u16; 8],
    letters: usize,
    wrong: bool,
) -> &'a [u16]
    requires { letters < 256 }
    ensures { length result.now ≤ 8 }
{
    let end = end(random, letters, wrong);
    let n = size(random, wrong);
    for i in 0..n {
        room[i] = place(random, end, i % 2 == 1) as u16;
    }
    &room[..n]
}
