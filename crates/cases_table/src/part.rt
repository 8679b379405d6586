// A part of a question on its own, with room for any catalogue that passes. A question keeps its parts in one row.

ghost use Rattle.std.specs.Prelude.{◌≡◌, ◌≤◌, [], ◌∷◌, ◌++◌, length, min, replicate, take};

// At most 3,200 bytes; those behind the size are 0 unless the part has been made smaller. Not cases_random's Buffer, of
// the same shape: here both fields are private, and a part that is full or sized too large stays within its room.
#[derive(Clone, Copy)]
pub struct Part {
    bytes: [u8; 3200],
    size: usize,
    ghost within: { size ≤ 3200 },
}

impl Part {
    pub fn new() -> Part
        ensures size { result.size ≡ 0 }
        ensures zeros { result.bytes ≡ replicate 3200 0 }
    {
        Part {
            bytes: [0; 3200],
            size: 0,
        }
    }

    // So many zeros.
    pub fn of_size(size: usize) -> Part
        ensures size { result.size ≡ min size 3200 }
        ensures zeros { result.bytes ≡ replicate 3200 0 }
    {
        let mut part = Part::new();
        part.resize(size);
        part
    }

    pub fn of(bytes: &[u8]) -> Part
        ensures { take result.size result.bytes ≡ take 3200 bytes.now }
    {
        let mut part = Part::new();
        for b in bytes {
            part.push(*b);
        }
        part
    }

    pub fn bytes(&self) -> &[u8]
        ensures bytes { result.now ≡ take self.now.size self.now.bytes }
        ensures length { length result.now ≡ self.now.size }
    {
        &self.bytes[..self.size]
    }

    pub fn size(&self) -> usize
        ensures value { result ≡ self.now.size }
        ensures bound { result ≤ 3200 }
    {
        self.size
    }

    // One more byte, if there is room.
    pub fn push(&mut self, b: u8)
        ensures { take self.new.size self.new.bytes ≡ take 3200 (take self.old.size self.old.bytes ++ b ∷ []) }
    {
        if self.size < 3200 {
            self.bytes[self.size] = b;
            self.size += 1;
        }
    }

    // Makes it so many bytes in all, as far as there is room.
    pub fn resize(&mut self, size: usize)
        ensures size { self.new.size ≡ min size 3200 }
        ensures kept { self.new.bytes ≡ self.old.bytes }
    {
        self.size = size.min(3200);
    }
}

#[cfg(test)]
mod tests {
    use super::*;

    #[test]
    fn part_keeps_its_bytes(rt: HostRuntime) {
        let mut part = Part::new();
        assert_eq!(rt; part.size(), 0);
        part.push(7);
        part.push(9);
        assert_eq!(rt; part.bytes(), [7u8, 9].as_slice());
        part.resize(1);
        assert_eq!(rt; part.bytes(), [7u8].as_slice());
        part.resize(3);
        assert_eq!(rt; part.bytes(), [7u8, 9, 0].as_slice());
    }

    #[test]
    fn part_stays_within_its_room(rt: HostRuntime) {
        let mut full = Part::of_size(5000);
        assert_eq!(rt; full.size(), 3200);
        full.push(7);
        assert_eq!(rt; full.bytes(), [0u8; 3200].as_slice());
        full.resize(3199);
        full.push(7);
        assert_eq!(rt; full.bytes().last().copied(), Some(7u8));
        assert_eq!(rt; Part::of(&[7; 3201]).bytes(), [7u8; 3200].as_slice());
        assert_eq!(rt; Part::of(&[1, 2, 3]).bytes(), [1u8, 2, 3].as_slice());
        assert_eq!(rt; Part::of_size(2).bytes(), [0u8, 0].as_slice());
    }
}
