// Numbers at random, by a linear congruential generator.

ghost use Rattle.std.specs.Prelude.{◌<◌, ◌≤◌};

#[derive(Drop)]
pub struct Random {
    state: u32,
}

impl Random {
    pub fn new() -> Self {
        Random::of(1)
    }

    // The numbers that follow this state; of 0 all are 0.
    pub fn of(state: u32) -> Self {
        Random { state }
    }

    // A number below n. The state is never 0 if it is not at first.
    pub fn draw(&mut self, n: usize) -> usize
        requires { 0 < n }
        ensures { result < n }
    {
        let next = u64::from(self.state) * 48271 % 2147483647;
        self.state = next as u32;
        next as usize % n
    }

    // The size of an area for a plan of so many bytes: just large enough, or larger.
    pub fn room(&mut self, size: usize) -> usize
        requires { size ≤ 1024 }
        ensures { result ≤ 1100 }
    {
        if self.draw(2) == 0 {
            size
        } else {
            size + self.draw(1101 - size)
        }
    }
}
