//! The DAC as bytes.
ghost use Rattle.std.specs.Prelude.{◌≡◌, ◌+◌, ◌<◌, ◌≤◌, ◌↔◌, length, IsTrue};
ghost use Rattle.vga_bits.specs.Saved.{IsPut};
ghost use Rattle.vga_dac.specs.Saved.{component_number as number_of, component_numbered};
ghost use Rattle.vga_dac.specs.Saved.{saved_dac, AreSixBitValues, AreSavedBytesAfterEntries};
ghost use Rattle.vga_dac.specs.Saved.{IsSavedDac, dac_from};

use super::{COMPONENT_MASK, Dac, ENTRIES, padded_entries};
use crate::component::Component;
use vga_bits::put_bytes;

/// The number of a component: red is 0, green 1 and blue 2.
fn component_number(component: Component) -> u8
    ensures { result ≡ number_of component }
{
    match component {
        Component::Red => 0,
        Component::Green => 1,
        Component::Blue => 2,
    }
}

/// The component with this number, 0 to 2.
fn component_of_number(number: u8) -> Component
    ensures { result ≡ component_numbered number }
{
    match number {
        0 => Component::Red,
        1 => Component::Green,
        _ => Component::Blue,
    }
}

/// Whether each value fits in six bits.
#[tactic(auto, using(crate::proofs::SavedLemmas::small_within))]
fn are_six_bit_values(values: &[u8]) -> bool
    ensures { IsTrue result ↔ AreSixBitValues values.now }
{
    for i in 0..values.len() {
        if values[i] > COMPONENT_MASK {
            return false;
        }
    }
    true
}

/// Whether the bytes after the entries are within bounds: the number of a component, and the two
/// values of six bits.
fn are_saved_bytes_after_entries(bytes: &[u8]) -> bool
    requires { length bytes.now ≡ 5 }
    ensures { IsTrue result ↔ AreSavedBytesAfterEntries bytes.now }
{
    bytes[1] <= 2 && bytes[2] <= COMPONENT_MASK && bytes[3] <= COMPONENT_MASK
}

impl Dac {
    /// How many bytes a DAC has when it is saved.
    pub const SAVED_LEN: usize = 773;

    /// Puts the bytes of the DAC into a slice from index `at` on. It returns the index after them.
    /// The order is: 256 reds, 256 greens and 256 blues, the DAC's index, the number of the
    /// component that the next byte is, the red and the green that wait, and the mask.
    #[tactic(auto, unfolding(crate::specs::Saved::saved_dac))]
    pub fn save(&self, out: &mut [u8], at: usize) -> usize
        requires { at + 773 ≤ length out.old }
        ensures put { IsPut out.old out.new at result (saved_dac self.now) }
        ensures end { result ≡ at + 773 }
    {
        let component = component_number(self.component);
        let at = put_bytes(out, at, &self.reds);
        let at = put_bytes(out, at, &self.greens);
        let at = put_bytes(out, at, &self.blues);
        let counters = [
            self.index,
            component,
            self.waiting_red,
            self.waiting_green,
            self.mask,
        ];
        put_bytes(out, at, &counters)
    }

    /// Whether some bytes are those of a DAC. Components and waiting values must fit in six bits,
    /// and the component's number must be 0 to 2.
    pub fn is_saved(bytes: &[u8]) -> bool
        ensures { IsTrue result ↔ IsSavedDac bytes.now }
    {
        if bytes.len() != Dac::SAVED_LEN {
            return false;
        }
        let (reds, rest) = bytes.split_at(ENTRIES);
        let (greens, rest) = rest.split_at(ENTRIES);
        let (blues, rest) = rest.split_at(ENTRIES);
        are_six_bit_values(reds)
            && are_six_bit_values(greens)
            && are_six_bit_values(blues)
            && are_saved_bytes_after_entries(rest)
    }

    /// Restores entries, index, component, waiting values and mask from the bytes of a DAC.
    #[tactic(auto, unfolding(crate::specs::Saved::dac_from))]
    pub fn restore(&mut self, bytes: &[u8])
        requires { IsSavedDac bytes.now }
        ensures { self.new ≡ dac_from bytes.now }
    {
        let (reds, rest) = bytes.split_at(ENTRIES);
        let (greens, rest) = rest.split_at(ENTRIES);
        let (blues, rest) = rest.split_at(ENTRIES);
        self.reds.copy_from_slice(reds);
        self.greens.copy_from_slice(greens);
        self.blues.copy_from_slice(blues);
        self.entries = padded_entries(&self.reds, &self.greens, &self.blues);
        self.index = rest[0];
        self.component = component_of_number(rest[1]);
        self.waiting_red = rest[2];
        self.waiting_green = rest[3];
        self.mask = rest[4];
    }

    /// A saved DAC is restored in full. The clauses are for proofs: nothing runs.
    #[tactic(auto, using(crate::proofs::SavedLemmas::dac_is_back))]
    pub fn restore_gives_what_was_saved(&self)
        ensures saved { IsSavedDac (saved_dac self.now) }
        ensures back { dac_from (saved_dac self.now) ≡ self.now }
    {
        let _ = &self.reds;
        self.bounds();
    }
}
