// Damage: bytes that may not stand where they are, a catalogue of too many records or of another size, a plan that is
// too long and areas that are too small, each now and then.

ghost use Rattle.std.specs.Prelude.{◌≡◌, ◌<◌, ◌≤◌, length};

use crate::buffer::Buffer;
use crate::catalogue::Catalogue;
use crate::random::Random;
use cases_solver::at;

// One time in four, puts another byte, more often a small one, among the first n or behind them.
pub fn harm_bytes(random: &mut Random, bytes: &mut [u8], n: usize)
    requires { n < 3400 }
    ensures { length bytes.new ≡ length bytes.old }
{
    let i = random.draw(n + 1);
    let most = random.draw(256) + 1;
    let b = random.draw(most);
    if random.draw(4) == 0 && i < bytes.len() {
        bytes[i] = b as u8;
    }
}

// The same among those in use.
pub fn harm<const N: usize>(random: &mut Random, buffer: &mut Buffer<N>)
    requires { buffer.old.size < 3400 }
    ensures { buffer.new.size ≡ buffer.old.size }
{
    let n = buffer.size;
    harm_bytes(random, &mut buffer.bytes, n);
}

// One time in 16 gives a catalogue of the second edition some records too many, and the size that it then tells.
fn overfill(random: &mut Random, c: &mut [u8], size: usize) -> usize
    requires { size < 3300 }
    ensures length { length c.new ≡ length c.old }
    ensures told { result < 3390 }
{
    let first = usize::from(at(c, 0));
    let records = 1025 + random.draw(8);
    if random.draw(16) != 0 || first < 128 || c.len() < 3 {
        return size;
    }
    c[1] = (records % 256) as u8;
    c[2] = (records / 256 % 256) as u8;
    3 + 2 * (first % 128) + 3 * records
}

// The size of a catalogue; one time in 16 it is another, most often a smaller one.
pub fn catalogue_size(random: &mut Random, c: &mut [u8], size: usize) -> usize
    requires { size < 3300 }
    ensures length { length c.new ≡ length c.old }
    ensures told { result < 3400 }
{
    let told = overfill(random, c, size);
    if random.draw(16) == 0 {
        return random.draw(told + 9);
    }
    told
}

// Gives a catalogue that size.
pub fn harm_size(random: &mut Random, c: &mut Catalogue)
    requires { c.old.size < 3300 }
    ensures { c.new.size < 3400 }
{
    let size = c.size;
    c.size = catalogue_size(random, &mut c.bytes, size);
}

// The size of a plan.
pub fn plan_size(random: &mut Random, size: usize) -> usize
    requires { size ≤ 1024 }
    ensures { result ≤ 1025 }
{
    if random.draw(16) == 0 { 1025 } else { size }
}

// The size of an area for a plan of so many bytes.
pub fn area_size(random: &mut Random, size: usize) -> usize
    requires { size ≤ 1025 }
    ensures { result ≤ 1100 }
{
    if random.draw(4) == 0 {
        random.draw(size + 1)
    } else {
        size
    }
}
