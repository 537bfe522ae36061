//! Pseudo-random numbers.
ghost use Rattle.std.specs.Prelude.{◌<◌};

use rand_core::Rng;
use rand_pcg::Pcg32;

/// A byte from a generator's next word.
pub fn next_byte(random: &mut Pcg32) -> u8 {
    (random.next_u32() >> 24) as u8
}

/// A number below `end`, from a generator's next word.
pub fn next_below(random: &mut Pcg32, end: u32) -> u32
    requires { 0 < end }
    ensures { result < end }
{
    (random.next_u32() >> 8) % end
}

/// True once in `throws` times, on average.
pub fn is_one_in(random: &mut Pcg32, throws: u32) -> bool
    requires { 0 < throws }
{
    next_below(random, throws) == 0
}
