//! Writes to a run of addresses, and reads from one. They go up from the first address, or down
//! from the last.
ghost use Rattle.std.specs.Prelude.{◌≡◌, ◌<◌, ◌≤◌, ◌+◌, ◌^◌, ℕ, length, slice_index};
ghost use Rattle.vga_card.specs.Bus.{after_puts, card_meaning, AtAddress};
ghost use Rattle.vga_card.specs.Transfers.{after_gets, after_puts_last_first, after_gets_last_first};
ghost use Rattle.vga_card.specs.Transfers.{after_moves_last_first, byte_at_or_ff, decoded_count, AreBytesRead};

use super::Card;

/// What a refused read gives when its byte is moved, or when it is one of many reads.
const REFUSED: u8 = 0xFF;

/// The first address past all windows of the display memory.
const END_OF_WINDOWS: u32 = 0xC_0000;

/// How many of n addresses from the first on come before the end of all windows. Cycles at the
/// others do nothing.
fn addresses_before_windows_end(first: u32, n: u32) -> u32
    ensures few { result ≤ n }
    ensures past { result < n → 0xC0000 ≤ first + result }
{
    n.min(END_OF_WINDOWS.saturating_sub(first))
}

/// How many of n moves come before the end of all windows, with the one address or the other.
/// The other moves do nothing.
pub fn moves_before_windows_end(from: u32, to: u32, n: u32) -> u32
    ensures few { result ≤ n }
    ensures past_from { result < n → 0xC0000 ≤ from + result }
    ensures past_to { result < n → 0xC0000 ≤ to + result }
{
    addresses_before_windows_end(from, n).max(addresses_before_windows_end(to, n))
}

impl Card {
    /// How many of the n addresses from the first on are decoded by the display memory.
    pub fn decoded_among(&self, first: u32, n: u32) -> u32
        requires { first + n < 2 ^ 32 }
        ensures value { result ≡ decoded_count self.now first n }
        ensures few { result ≤ n }
    {
        self.host.decoded_among(first, n, self.misc)
    }

    /// Writes bytes to the addresses from the first on. A refused write does nothing.
    #[tactic(auto, using(crate::proofs::CycleLemmas::card_puts))]
    pub fn put_slice(&mut self, first: u32, bytes: &[u8])
        requires { first + length bytes.now < 2 ^ 32 }
        ensures { self.new ≡ after_puts card_meaning first (slice_index bytes.now)
            (length bytes.now) 0 self.old }
    {
        self.host.put_slice(first, bytes, self.misc);
    }

    /// Writes bytes to the addresses from the first on, the last byte first. A refused write does
    /// nothing.
    pub fn put_slice_last_first(&mut self, first: u32, bytes: &[u8])
        requires { first + length bytes.now < 2 ^ 32 }
        ensures { self.new ≡ after_puts_last_first card_meaning first (slice_index bytes.now)
            (length bytes.now) self.old }
    {
        let n = bytes.len();
        for i in 0..n {
            let at = n - 1 - i;
            let _ = self.put(first + at as u32, bytes[at]);
        }
    }

    /// Writes a byte to n addresses from the first on. A refused write does nothing.
    pub fn fill(&mut self, first: u32, n: u32, value: u8)
        requires { first + n < 2 ^ 32 }
        ensures { self.new ≡ after_puts card_meaning first (λ i. value) n 0 self.old }
    {
        self.put_in_turn(first, addresses_before_windows_end(first, n), value, value);
    }

    /// Writes a byte to n addresses from the first on, the last address first. A refused write does
    /// nothing.
    pub fn fill_last_first(&mut self, first: u32, n: u32, value: u8)
        requires { first + n < 2 ^ 32 }
        ensures { self.new ≡ after_puts_last_first card_meaning first (λ i. value) n self.old }
    {
        let kept = addresses_before_windows_end(first, n);
        for i in 0..kept {
            let _ = self.put(first + (kept - 1 - i), value);
        }
    }

    /// The byte that a read of an address returns, or FF where the read is refused.
    fn get_or_ff(&mut self, address: u32) -> u8
        ensures after { self.new ≡ (card_meaning.read self.old (AtAddress address)).0 }
        ensures byte { result ≡ byte_at_or_ff self.old address }
    {
        match self.get(address) {
            Ok(byte) => byte,
            Err(_) => REFUSED,
        }
    }

    /// Reads the addresses from the first on into the caller's bytes. A refused read gives FF and
    /// loads no latch.
    #[tactic(auto, using(crate::proofs::TransferLemmas::card_gets))]
    pub fn get_slice(&mut self, first: u32, bytes: &mut [u8])
        requires { first + length bytes.old < 2 ^ 32 }
        ensures after { self.new ≡ after_gets card_meaning first (length bytes.old) 0 self.old }
        ensures bytes { AreBytesRead self.old first bytes.old bytes.new }
    {
        self.host.get_slice(first, bytes, self.misc);
    }

    /// Reads the addresses from the first on into the caller's bytes, the last address first. A
    /// refused read gives FF and loads no latch.
    pub fn get_slice_last_first(&mut self, first: u32, bytes: &mut [u8])
        requires { first + length bytes.old < 2 ^ 32 }
        ensures after { self.new ≡ after_gets_last_first card_meaning first (length bytes.old)
            self.old }
        ensures bytes { AreBytesRead self.old first bytes.old bytes.new }
    {
        let n = bytes.len();
        for i in 0..n {
            let at = n - 1 - i;
            bytes[at] = self.get_or_ff(first + at as u32);
        }
    }

    /// Moves n bytes from one run of addresses to another, the last byte first. A refused write
    /// does nothing, and a refused read gives FF.
    pub fn move_bytes_last_first(&mut self, from: u32, to: u32, n: u32)
        requires from { from + n < 2 ^ 32 }
        requires to { to + n < 2 ^ 32 }
        ensures { self.new ≡ after_moves_last_first card_meaning from to n self.old }
    {
        let kept = moves_before_windows_end(from, to, n);
        for i in 0..kept {
            let at = kept - 1 - i;
            let byte = self.get_or_ff(from + at);
            let _ = self.put(to + at, byte);
        }
    }
}
