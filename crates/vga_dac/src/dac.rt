//! The 256 entries, with the index, the component counter and what waits for a write to be whole.
ghost use Rattle.std.specs.Prelude.{◌≡◌};

mod saved;

use super::component::Component;
use std::marker::Model;

/// The bits that a component keeps.
const COMPONENT_MASK: u8 = 0x3F;

/// How many entries there are.
const ENTRIES: usize = 256;

/// The DAC: which colour each colour number means.
///
/// Contracts see one record: a list of 256 values for each component, the index, the component that
/// the next byte is, the red and green that wait, and the mask.
#[derive(Drop)]
pub struct Dac {
    reds: [u8; 256],
    greens: [u8; 256],
    blues: [u8; 256],
    /// The three components of each entry and one more byte, 0, kept for speed alone.
    entries: [[u8; 4]; 256],
    index: u8,
    component: Component,
    waiting_red: u8,
    waiting_green: u8,
    mask: u8,
}

impl Model for Dac {
    ghost use Rattle.std.specs.Prelude.{◌<◌};
    ghost use Rattle.vga_dac.specs.Saved.{AreSixBitValues};
    ghost use Rattle.vga_dac.specs.Dac.{DacState, ArePaddedEntries};

    ghost Value = { DacState };

    ghost view = { λ d. record {
      reds = d.reds;
      greens = d.greens;
      blues = d.blues;
      index = d.index;
      component = d.component;
      waiting_red = d.waiting_red;
      waiting_green = d.waiting_green;
      mask = d.mask;
    } };

    ghost invariant = { λ d. AreSixBitValues d.reds × AreSixBitValues d.greens × AreSixBitValues
        d.blues
        × (d.waiting_red < 64) × (d.waiting_green < 64)
        × ArePaddedEntries 256 d.entries d.reds d.greens d.blues };
}

ghost use Rattle.vga_bits.specs.Bytes.{zeros as zeros_of};
ghost use Rattle.vga_dac.specs.Dac.{ArePaddedEntries};

/// `N` values, each 0.
#[tactic(auto, unfolding(vga_bits::specs::Bytes::zeros))]
fn zeros<const N: usize>() -> [u8; N]
    ensures { result ≡ zeros_of N }
{
    [0; N]
}

/// The entries that have these components.
fn padded_entries(reds: &[u8; 256], greens: &[u8; 256], blues: &[u8; 256]) -> [[u8; 4]; 256]
    ensures { ArePaddedEntries 256 result reds.now greens.now blues.now }
{
    let mut entries = [[0; 4]; ENTRIES];
    for i in 0..ENTRIES {
        entries[i] = [reds[i], greens[i], blues[i], 0];
    }
    entries
}

impl Dac {
    ghost use Rattle.std.specs.Prelude.{[], ◌∷◌, ◌++◌};
    ghost use Rattle.vga_dac.specs.Dac.{power_on_dac, after_index_write, after_component_write};
    ghost use Rattle.vga_dac.specs.Dac.{component_value_read};
    ghost use Rattle.vga_dac.specs.Dac.{after_component_read, entry_of};
    ghost use Rattle.vga_dac.specs.Dac.{IsDac};

    /// The DAC at power-on: all entries are black, the index is 0, the next component is red, the
    /// waiting values are 0, and the mask is FF.
    #[tactic(auto, using(crate::proofs::SavedLemmas::small_zeros))]
    pub fn new() -> Dac
        ensures { result ≡ power_on_dac }
    {
        let reds = zeros::<ENTRIES>();
        let greens = zeros::<ENTRIES>();
        let blues = zeros::<ENTRIES>();
        Dac {
            entries: padded_entries(&reds, &greens, &blues),
            reds,
            greens,
            blues,
            index: 0,
            component: Component::Red,
            waiting_red: 0,
            waiting_green: 0,
            mask: 0xFF,
        }
    }

    /// There are 256 entries. The clause is for proofs: nothing runs.
    pub fn bounds(&self)
        ensures { IsDac self.now }
    {
        let _ = [self.reds[0], self.greens[0], self.blues[0]];
    }

    /// Sets the index for writing, and red as the next component.
    pub fn write_index(&mut self, v: u8)
        ensures { self.new ≡ after_index_write self.old v }
    {
        self.index = v;
        self.component = Component::Red;
    }

    /// Sets the index for reading, and red as the next component. There is one index for both.
    pub fn set_read_index(&mut self, v: u8)
        ensures { self.new ≡ after_index_write self.old v }
    {
        self.write_index(v);
    }

    /// The index of the entry whose component is read or written next.
    pub fn read_index(&self) -> u8
        ensures { result ≡ self.now.index }
    {
        self.index
    }

    /// Moves on to the next component, and after blue to the next entry. Entry 0 follows entry 255.
    fn advance_component(&mut self)
        ensures { self.new ≡ after_component_read self.old }
    {
        if self.component == Component::Blue {
            self.index = self.index.wrapping_add(1);
        }
        self.component = self.component.next();
    }

    /// Writes the next component and keeps six bits of it. Red and green wait. Blue stores all
    /// three in the entry that the index selects.
    #[tactic(auto, using(crate::proofs::SavedLemmas::small_set, crate::proofs::SavedLemmas::small_and, crate::proofs::EntryLemmas::entries_set))]
    pub fn write_component(&mut self, v: u8)
        ensures { self.new ≡ after_component_write self.old v }
    {
        let value = v & COMPONENT_MASK;
        match self.component {
            Component::Red => self.waiting_red = value,
            Component::Green => self.waiting_green = value,
            Component::Blue => {
                let at = self.index as usize;
                self.reds[at] = self.waiting_red;
                self.greens[at] = self.waiting_green;
                self.blues[at] = value;
                self.entries[at] = [self.waiting_red, self.waiting_green, value, 0];
            }
        }
        self.advance_component();
    }

    /// Reads the next component of the entry that the index selects.
    pub fn read_component(&mut self) -> u8
        ensures value { result ≡ component_value_read self.old }
        ensures after { self.new ≡ after_component_read self.old }
    {
        let at = self.index as usize;
        let value = match self.component {
            Component::Red => self.reds[at],
            Component::Green => self.greens[at],
            Component::Blue => self.blues[at],
        };
        self.advance_component();
        value
    }

    /// Sets the mask, which is ANDed with each colour number to select an entry.
    pub fn set_mask(&mut self, v: u8)
        ensures { self.new ≡ record self.old { mask = v } }
    {
        self.mask = v;
    }

    /// The mask, which is ANDed with each colour number.
    pub fn mask(&self) -> u8
        ensures { result ≡ self.now.mask }
    {
        self.mask
    }

    /// Red, green and blue of entry `i`, 0 to 63 each.
    pub fn entry(&self, i: u8) -> [u8; 3]
        ensures { result ≡ entry_of self.now i }
    {
        let at = i as usize;
        [self.reds[at], self.greens[at], self.blues[at]]
    }

    /// Red, green and blue of entry `i`, and one more byte, 0. Four bytes are moved at once, three
    /// are not.
    pub fn entry_and_zero_byte(&self, i: u8) -> [u8; 4]
        ensures { result ≡ entry_of self.now i ++ 0 ∷ [] }
    {
        self.entries[i as usize]
    }

    /// The component that the next byte is.
    pub fn component(&self) -> Component
        ensures { result ≡ self.now.component }
    {
        self.component
    }

    /// The red and the green that wait for blue.
    pub fn waiting(&self) -> (u8, u8)
        ensures red { result.0 ≡ self.now.waiting_red }
        ensures green { result.1 ≡ self.now.waiting_green }
    {
        (self.waiting_red, self.waiting_green)
    }
}
