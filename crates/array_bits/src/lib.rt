// 24 numbers gathered as the bits of one number, so that 24 tests are one.

#![tactic(auto)]

ghost use Rattle.spec.specs.Bits.{Gathered};

// Bit k is set exactly if the number at index k is from low to high.
pub fn gather(numbers: &[u16; 24], low: u16, high: u16) -> u32
    ensures { Gathered low high numbers.now result }
{
    let mut bits = 0;
    for k in (0..24).rev() {
        let n = numbers[k];
        if low <= n && n <= high {
            bits |= 1 << k;
        }
    }
    bits
}
