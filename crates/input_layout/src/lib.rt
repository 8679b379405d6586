// How the bytes of a catalogue are laid out, in either edition: `Catalogue::of` makes the layout once from the first
// bytes, and the heads and records are then read at the places that it gives. The crate spec defines both editions
// (specs/Layout.antt).

#![tactic(auto)]

ghost use Rattle.std.specs.Prelude.{ℕ, ◌+◌, ◌<◌, ◌≤◌, ◌≡◌, List, length};
ghost use Rattle.spec.specs.Layout.{byte_at, pair_at, layout as layoutIn};
ghost use Rattle.spec.specs.Catalogue.{commands, records, head_place, command_place, head, command, next};
ghost use Rattle.input_layout.specs.Laid.{Laid, Framed};

// N and R, and how many bytes an index takes: one in the first edition, two in the second.
// The width is no enum: it is a number of bytes, which the bounds of the index add, and the manual's two forms test it.
#[derive(Clone, Copy)]
pub struct Layout {
    pub commands: usize,
    pub records: usize,
    pub width: usize,
}

// A catalogue of any bytes, and the layout that they have.
#[derive(Clone, Copy)]
pub struct Catalogue<'a> {
    pub bytes: &'a [u8],
    pub layout: Layout,
    pub ghost laid: { Laid bytes.now layout },
}

// The byte at place i, and 0 past the end.
pub fn byte_at(s: &[u8], i: usize) -> usize
    ensures byte { result ≡ byte_at s.now i }
    ensures small { result < 256 }
{
    if i < s.len() {
        return s[i] as usize;
    }
    0
}

// The number in the two bytes at place i, low byte first.
pub fn pair_at(s: &[u8], i: usize) -> usize
    requires { i ≤ 1000000 }
    ensures pair { result ≡ pair_at s.now i }
    ensures small { result < 65536 }
{
    byte_at(s, i) + 256 * byte_at(s, i + 1)
}

// The layout of any bytes: a first byte of 128 or more is that of the second edition.
fn layout_of(c: &[u8]) -> Layout
    ensures { Laid c.now result }
{
    let first = byte_at(c, 0);
    if first < 128 {
        let records = byte_at(c, 1);
        return Layout {
            commands: first,
            records,
            width: 1,
        };
    }
    let records = pair_at(c, 1);
    Layout {
        commands: first - 128,
        records,
        width: 2,
    }
}

impl<'a> Catalogue<'a> {
    // The catalogue of any bytes.
    pub fn of(bytes: &'a [u8]) -> Catalogue<'a>
        ensures { result.bytes.now ≡ bytes.now }
    {
        let layout = layout_of(bytes);
        Catalogue { bytes, layout }
    }

    // The bytes of the whole catalogue: 2 + N + 2R, in the second edition 3 + 2N + 3R.
    pub fn size(&self) -> usize
        ensures size { result ≡ (layoutIn self.now.bytes.now).size }
        ensures near { result ≤ 200000 }
    {
        if self.layout.width == 1 {
            return 2 + self.layout.commands + 2 * self.layout.records;
        }
        3 + 2 * self.layout.commands + 3 * self.layout.records
    }

    // The place of the head of command a.
    pub fn head_place(&self, a: usize) -> usize
        requires { a ≤ commands self.now.bytes.now }
        ensures { result ≡ head_place self.now.bytes.now a }
    {
        if self.layout.width == 1 {
            return 1 + a;
        }
        1 + 2 * a
    }

    // The place of the command of record j; its next index stands behind it.
    pub fn command_place(&self, j: usize) -> usize
        requires { j ≤ records self.now.bytes.now }
        ensures place { result ≡ command_place self.now.bytes.now j }
        ensures near { result ≤ 200000 }
    {
        if self.layout.width == 1 {
            return self.layout.commands + 2 * j;
        }
        2 * self.layout.commands + 3 * j
    }

    // The index that stands at place i.
    fn index_at(&self, i: usize) -> usize
        requires { i + self.now.layout.width ≤ length self.now.bytes.now }
        ensures index { result ≡ (layoutIn self.now.bytes.now).index_at i }
        ensures small { result < 65536 }
    {
        let low = self.bytes[i] as usize;
        if self.layout.width == 1 {
            return low;
        }
        low + 256 * (self.bytes[i + 1] as usize)
    }

    // The head of command a.
    pub fn head_of(&self, a: usize) -> usize
        requires framed { Framed self.now.bytes.now }
        requires in_range { (1 ≤ a) × (a ≤ commands self.now.bytes.now) }
        ensures head { result ≡ head self.now.bytes.now a }
        ensures small { result < 65536 }
    {
        self.index_at(self.head_place(a))
    }

    // The command of record j.
    pub fn command_of(&self, j: usize) -> usize
        requires framed { Framed self.now.bytes.now }
        requires in_range { (1 ≤ j) × (j ≤ records self.now.bytes.now) }
        ensures command { result ≡ command self.now.bytes.now j }
        ensures small { result < 256 }
    {
        self.bytes[self.command_place(j)] as usize
    }

    // The next index of record j.
    pub fn next_of(&self, j: usize) -> usize
        requires framed { Framed self.now.bytes.now }
        requires in_range { (1 ≤ j) × (j ≤ records self.now.bytes.now) }
        ensures next { result ≡ next self.now.bytes.now j }
        ensures small { result < 65536 }
    {
        self.index_at(self.command_place(j) + 1)
    }
}
