// Room for N bytes, of which so many are in use; the others are 0 until they are harmed. Not cases_table's
// Part, of the same shape: here size and bytes are set at any place, there both are private and bytes are pushed.

ghost use Rattle.std.specs.Prelude.{◌≡◌, ◌≤◌, length};

#[derive(Clone, Copy)]
pub struct Buffer<const N: usize> {
    pub bytes: [u8; N],
    pub size: usize,
    ghost within: { size ≤ N },
}

impl<const N: usize> Buffer<N> {
    pub fn used(&self) -> &[u8]
        ensures { length result.now ≡ self.now.size }
    {
        &self.bytes[..self.size]
    }

    // Puts a number as byte i, if there is room for it.
    pub fn put(&mut self, i: usize, b: usize)
        ensures { self.new.size ≡ self.old.size }
    {
        if i < N {
            self.bytes[i] = (b % 256) as u8;
        }
    }
}
