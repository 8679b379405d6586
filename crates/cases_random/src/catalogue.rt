// Catalogues at random, of either edition. A chain has only commands larger than its own, and leads only to older
// records, so that none has its own command and none is endless. Some chains share a tail, and some records are in no
// chain.

ghost use Rattle.std.specs.Prelude.{◌≡◌, ◌+◌, ◌<◌, ◌≤◌};

use crate::buffer::Buffer;
use crate::random::Random;
use cases_solver::at;

// Room for any catalogue that passes, and for some that are too large.
pub type Catalogue = Buffer<3400>;

// A catalogue that grows: of the first or the second edition, with so many commands and records. Of which edition it
// is, is a property of the data, as in the first byte of a catalogue: it tells how wide heads and indices are. The
// bytes are no Buffer yet, as the size is known only at the end.
#[derive(Drop)]
struct Draft {
    second: bool,
    commands: usize,
    records: usize,
    bytes: [u8; 3400],
}

impl Draft {
    // The place of the head of command a.
    fn head(&self, a: usize) -> usize
        requires { a ≤ 24 }
        ensures { result < 3400 }
    {
        if self.second { 1 + 2 * a } else { 1 + a }
    }

    // The place of record j.
    fn record(&self, j: usize) -> usize
        requires { (self.now.commands ≤ 24) × (j ≤ 1025) }
        ensures { result < 3300 }
    {
        if self.second {
            2 * self.commands + 3 * j
        } else {
            self.commands + 2 * j
        }
    }

    // The index at place i.
    fn index(&self, i: usize) -> usize
        requires { i < 3400 }
    {
        let low = usize::from(at(&self.bytes, i));
        if self.second {
            low + 256 * usize::from(at(&self.bytes, i + 1))
        } else {
            low
        }
    }

    // Puts a number as byte i, if there is room for it.
    fn put(&mut self, i: usize, b: usize)
        ensures commands_kept { self.new.commands ≡ self.old.commands }
        ensures records_kept { self.new.records ≡ self.old.records }
    {
        if i < 3400 {
            self.bytes[i] = (b % 256) as u8;
        }
    }

    fn put_index(&mut self, i: usize, index: usize)
        requires { i < 3400 }
        ensures commands_kept { self.new.commands ≡ self.old.commands }
        ensures records_kept { self.new.records ≡ self.old.records }
    {
        self.put(i, index);
        if self.second {
            self.put(i + 1, index / 256);
        }
    }

    // Makes a record more, of command b, the first in the chain of command a.
    fn add(&mut self, a: usize, b: usize)
        requires commands_bound { (a < 24) × (self.old.commands ≤ 24) }
        requires records_bound { self.old.records < 1024 }
        ensures commands_kept { self.new.commands ≡ self.old.commands }
        ensures one_more { self.new.records ≡ self.old.records + 1 }
    {
        let head = self.head(a);
        let next = self.index(head);
        let more = self.records + 1;
        let place = self.record(more);
        self.put(place, b);
        self.put_index(place + 1, next);
        self.put_index(head, more);
        self.records = more;
    }

    // A record more in the chain of some command, or that command takes the chain of a larger one.
    fn grow(&mut self, random: &mut Random)
        requires commands_bound { (1 < self.old.commands) × (self.old.commands ≤ 24) }
        requires records_bound { self.old.records < 1024 }
        ensures commands_kept { self.new.commands ≡ self.old.commands }
        ensures at_most_one { self.new.records ≤ self.old.records + 1 }
    {
        let a = 1 + random.draw(self.commands - 1);
        let b = a + 1 + random.draw(self.commands - a);
        if random.draw(8) == 0 {
            let chain = self.index(self.head(b));
            self.put_index(self.head(a), chain);
        } else {
            self.add(a, b);
        }
    }
}

// How often a catalogue grows: at most 255 times, and in the second edition now and then up to 1,024 times, since only
// that has room for as many records.
fn turns(random: &mut Random, second: bool) -> usize
    ensures { result ≤ 1024 }
{
    if second && random.draw(8) == 0 {
        return random.draw(1025);
    }
    let most = random.draw(256) + 1;
    random.draw(most)
}

// A catalogue of n commands that has grown.
fn grown(random: &mut Random, n: usize) -> Draft
    requires { (0 < n) × (n ≤ 24) }
    ensures commands { result.commands ≡ n }
    ensures records { result.records ≤ 1024 }
{
    let second = random.draw(2) == 1;
    let mut draft = Draft {
        second,
        commands: n,
        records: 0,
        bytes: [0; 3400],
    };
    let turns = turns(random, second);
    if 1 < n {
        for _turn in 0..turns {
            draft.grow(random);
        }
    }
    draft
}

// A catalogue of n commands.
pub fn random_catalogue(random: &mut Random, n: usize) -> Catalogue
    requires { (0 < n) × (n ≤ 24) }
    ensures { result.size < 3300 }
{
    let mut draft = grown(random, n);
    let records = draft.records;
    let first = if draft.second { 128 + n } else { n };
    draft.put(0, first);
    draft.put_index(1, records);
    Catalogue {
        bytes: draft.bytes,
        size: draft.record(records + 1),
    }
}
