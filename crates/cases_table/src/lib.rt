// The questions of the bench program: the lines of its table, and every small plan under K.

#![tactic(auto)]

ghost use Rattle.std.specs.Prelude.{◌≡◌, ◌<◌, ◌≤◌, ◌+◌, ◌%◌, get_or, length, set};
ghost use Rattle.cases_table.specs.Row.{index_of, start_of};

mod every;
mod line;
mod part;
mod second;

pub use every::{plan_of_four, plans_of_two};
pub use line::{end, read};
pub use part::Part;
pub use second::in_second;

// The calls; the table has the word in brackets.
#[derive(Clone, Copy, PartialEq, Eq)]
pub enum Call {
    // whether the two commands of v conflict, by the catalogue as it is read (reads)
    Conflict,
    // the normal form of v (normal), its pairs (pairs) and its slots (slots)
    NormalForm,
    Pairs,
    Slots,
    // whether the letters of the normal form of v stay in the order of the places w (precedence)
    Precedence,
    // the core of v (core)
    Core,
    // whether v and w are equal (equal), and whether they are joined as loops (loops)
    Equal,
    Loops,
    // the fault of the catalogue, v, w and u (faults)
    Fault,
    // whether u leads from v to w (joins)
    LeadIn,
}

// The fields of a question's row, one for each part, in the order in which their bytes begin. Of the two areas the sizes
// count.
#[derive(Clone, Copy, PartialEq, Eq)]
pub enum Field {
    W,
    U,
    Area,
    SecondArea,
    Name,
    Catalogue,
    V,
}

impl Field {
    fn index(self) -> usize
        ensures number { result ≡ index_of self }
        ensures bound { result < 7 }
    {
        self as usize
    }

    // Where its bytes begin: a part has room for 128 of them, but the catalogue for 3,200 and v for 1,100.
    fn start(self) -> usize
        ensures place { result ≡ start_of self }
        ensures bound { result ≤ 3840 }
    {
        match self {
            Field::V => 3840,
            _ => 128 * self.index(),
        }
    }
}

// The parts share one row of bytes: where one is longer than its room, its bytes lie over those of the next ones. One
// that is made longer has the bytes that lay there before. A size is modulo 65,536.
#[derive(Clone, Copy)]
pub struct Question {
    pub call: Call,
    // whether the part of the catalogue has been opened, with another byte than 0 two places behind the mark
    own_catalogue: bool,
    sizes: [u16; 7],
    bytes: [u8; 4940],
}

impl Question {
    // A call with no catalogue, on empty plans, in areas that are large enough for any case.
    fn blank(call: Call) -> Question
        ensures { result.call ≡ call }
    {
        let mut q = Question {
            call,
            own_catalogue: false,
            sizes: [0; 7],
            bytes: [0; 4940],
        };
        q.resize(Field::Area, 1100);
        q.resize(Field::SecondArea, 1100);
        q
    }

    // The same under K, with conflicts 1-2, 2-3, 3-4.
    pub fn under_k(call: Call) -> Question
        ensures { result.call ≡ call }
    {
        let mut q = Question::blank(call);
        q.bring_k();
        q
    }

    fn bring_k(&mut self)
        ensures { self.new.call ≡ self.old.call }
    {
        self.resize(Field::Catalogue, 0);
        for b in &[4, 3, 1, 2, 3, 0, 2, 0, 3, 0, 4, 0] {
            self.push(Field::Catalogue, *b);
        }
    }

    pub fn size(&self, part: Field) -> usize
        ensures value { result ≡ get_or self.now.sizes (index_of part) 0 }
        ensures bound { result < 65536 }
    {
        usize::from(self.sizes[part.index()])
    }

    // The bytes of a part; none if they would go past the end of the row.
    pub fn bytes(&self, part: Field) -> &[u8]
        ensures { length result.now ≤ 4940 }
    {
        let start = part.start();
        let end = start + self.size(part);
        if end <= 4940 {
            &self.bytes[start..end]
        } else {
            &[]
        }
    }

    // One more byte in a part; none is written past the end of the row.
    pub fn push(&mut self, part: Field, b: u8)
        ensures size { self.new.sizes ≡ set self.old.sizes (index_of part)
            ((get_or self.old.sizes (index_of part) 0 + 1) % 65536) }
        ensures byte { self.new.bytes ≡ set self.old.bytes
            (start_of part + get_or self.old.sizes (index_of part) 0) b }
        ensures rest { (self.new.call ≡ self.old.call) × (self.new.own_catalogue ≡ self.old.own_catalogue) }
    {
        let n = self.size(part);
        let place = part.start() + n;
        if place < 4940 {
            self.bytes[place] = b;
        }
        self.resize(part, n + 1);
    }

    // Makes a part so many bytes in all, whatever these are.
    pub fn resize(&mut self, part: Field, size: usize)
        ensures size { self.new.sizes ≡ set self.old.sizes (index_of part) (size % 65536) }
        ensures bytes { self.new.bytes ≡ self.old.bytes }
        ensures rest { (self.new.call ≡ self.old.call) × (self.new.own_catalogue ≡ self.old.own_catalogue) }
    {
        self.sizes[part.index()] = (size % 65536) as u16;
    }
}

#[cfg(test)]
mod tests {
    use super::*;

    #[test]
    fn question_is_made_of_parts(rt: HostRuntime) {
        let mut q = Question::under_k(Call::Equal);
        assert!(rt; q.call == Call::Equal);
        let k = [4u8, 3, 1, 2, 3, 0, 2, 0, 3, 0, 4, 0];
        assert_eq!(rt; q.bytes(Field::Catalogue), k.as_slice());
        assert_eq!(rt; q.size(Field::Area), 1100);
        q.push(Field::V, 4);
        q.push(Field::V, 129);
        q.push(Field::W, 2);
        assert_eq!(rt; q.bytes(Field::V), [4u8, 129].as_slice());
        assert_eq!(rt; q.bytes(Field::W), [2u8].as_slice());
        q.resize(Field::V, 1);
        assert_eq!(rt; q.bytes(Field::V), [4u8].as_slice());
        let again = in_second(&q);
        assert_eq!(rt; again.bytes(Field::Catalogue).first().copied(), Some(132u8));
        assert_eq!(rt; again.bytes(Field::V), [4u8].as_slice());
    }
}
