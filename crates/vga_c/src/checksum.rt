//! Adler-32, the checksum of zlib (RFC 1950).
ghost use Rattle.std.specs.Prelude.{◌≡◌, ◌≤◌, ◌<◌, length};
ghost use Rattle.vga_c.specs.Checksum.{adler_32, BringSumsTo};

use crate::lane_sums::LaneSums;

/// The largest prime below 65,536.
const PRIME: u32 = 65_521;

/// How many bytes are summed in lanes at once.
const BLOCK: usize = 128;

/// Adds fewer than `BLOCK` bytes to the two sums of Adler-32, one after the other.
fn add_bytes_to_sums(mut sum: u32, mut sums: u32, bytes: &[u8]) -> (u32, u32)
    requires sum { sum < 65521 }
    requires sums { sums < 65521 }
    requires len { length bytes.now < 128 }
    ensures rest { BringSumsTo sum sums bytes.now result.0 result.1 }
    ensures sum { result.0 < 65521 }
    ensures sums { result.1 < 65521 }
{
    for i in 0..bytes.len() {
        sum += bytes[i] as u32;
        sums += sum;
    }
    (sum % PRIME, sums % PRIME)
}

/// Adds a block of bytes to the two sums of Adler-32.
fn add_block_to_sums(sum: u32, sums: u32, block: &[u8]) -> (u32, u32)
    requires sum { sum < 65521 }
    requires sums { sums < 65521 }
    requires len { length block.now ≡ 128 }
    ensures rest { BringSumsTo sum sums block.now result.0 result.1 }
    ensures sum { result.0 < 65521 }
    ensures sums { result.1 < 65521 }
{
    let lanes = LaneSums::of_block(block);
    let next_sum = sum + lanes.sum();
    let next_sums = sums + BLOCK as u32 * sum + lanes.sum_of_sums();
    (next_sum % PRIME, next_sums % PRIME)
}

/// The Adler-32 checksum of some bytes.
pub fn checksum(bytes: &[u8]) -> u32
    ensures { result ≡ adler_32 bytes.now }
{
    let mut sums = (1, 0);
    let mut rest = bytes;
    while rest.len() >= BLOCK {
        let (block, after) = rest.split_at(BLOCK);
        sums = add_block_to_sums(sums.0, sums.1, block);
        rest = after;
    }
    let (sum, sums) = add_bytes_to_sums(sums.0, sums.1, rest);
    65_536 * sums + sum
}
