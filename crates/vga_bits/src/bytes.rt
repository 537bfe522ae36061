//! Bytes that contracts see as a list.
ghost use Rattle.std.specs.Prelude.{◌≡◌, ◌<◌, IfOk, IsOkUnless, OnErr, length, slice_set};
ghost use Rattle.vga_bits.specs.Bytes.{zeros as zeros_of};

use super::fault::Fault;
use std::alloc::Global;
use std::marker::Model;

/// Some bytes, which contracts see as their list. An empty list allocates nothing, and other bytes
/// are boxed. So a list of steps stays small, since few steps have a block.
#[derive(Drop)]
pub struct Bytes {
    items: Option<Box<Vec<u8>>>,
}

impl Model for Bytes {
    ghost use Rattle.std.specs.Prelude.{ℕ, List};
    ghost use Rattle.vga_bits.specs.Bytes.{bytes_or_empty};

    ghost Value = { List ℕ };

    ghost view = { λ bytes. bytes_or_empty bytes.items };
}

impl Bytes {
    /// The bytes of a vector, without a copy. It fails only with `OutOfMemory`.
    pub fn from_vec(alloc: Global, items: Vec<u8>) -> Result<Bytes, Fault>
        ensures kept { IfOk result (λ bytes. bytes ≡ items.items) }
        ensures err { IsOkUnless result Fault.OutOfMemory }
    {
        if items.is_empty() {
            return Ok(Bytes { items: None });
        }
        match Box::new(alloc, items) {
            Ok(items) => Ok(Bytes { items: Some(items) }),
            Err(_) => Err(Fault::OutOfMemory),
        }
    }

    /// A copy of the bytes of a slice. It fails only with `OutOfMemory`.
    pub fn copy(alloc: Global, bytes: &[u8]) -> Result<Bytes, Fault>
        ensures copied { IfOk result (λ copy. copy ≡ bytes.now) }
        ensures err { IsOkUnless result Fault.OutOfMemory }
    {
        match Vec::from_slice(alloc, bytes) {
            Ok(items) => Bytes::from_vec(alloc, items),
            Err(_) => Err(Fault::OutOfMemory),
        }
    }

    /// `len` bytes, each 0. It fails only with `OutOfMemory`, and never where `len` is 0.
    #[tactic(auto, unfolding(crate::specs::Bytes::zeros))]
    pub fn zeros(alloc: Global, len: usize) -> Result<Bytes, Fault>
        ensures zeros { IfOk result (λ bytes. bytes ≡ zeros_of len) }
        ensures err { IsOkUnless result Fault.OutOfMemory }
        ensures some { OnErr result (0 < len) }
    {
        if len == 0 {
            return Ok(Bytes { items: None });
        }
        match vec![in alloc; 0; len] {
            Ok(items) => Bytes::from_vec(alloc, items),
            Err(_) => Err(Fault::OutOfMemory),
        }
    }

    /// Sets the byte at index `i`, below the length, to `value`. The others stay the same.
    pub fn set(&mut self, i: usize, value: u8)
        requires { i < length self.old }
        ensures { self.new ≡ slice_set self.old i value }
    {
        if let Some(items) = &mut self.items {
            items[i] = value;
        }
    }

    /// The bytes, borrowed as a slice.
    pub fn as_slice(&self) -> &[u8]
        ensures { result.now ≡ self.now }
    {
        match &self.items {
            Some(items) => items.as_slice(),
            None => &[],
        }
    }
}
