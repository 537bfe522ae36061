//! Cycles of a word: its low byte at a port or address, and then its high byte at the next one. A
//! refused cycle moves neither byte.
ghost use Rattle.std.specs.Prelude.{◌≡◌, ◌+◌, ◌*◌, ◌/◌, ◌%◌, ◌<◌, ◌&&◌, IsOk};
ghost use Rattle.std.specs.Prelude.{true, false, None, Ok, IfSome};
ghost use Rattle.vga_host.specs.Graphics.{is_graphics};
ghost use Rattle.vga_host.specs.Memory.Address.{is_decoded, window_offset, plane_offset, is_reached};
ghost use Rattle.vga_host.specs.OffsetRun.{is_in_run};
ghost use Rattle.vga_card.specs.LineAhead.{IsAtSameLine};
ghost use Rattle.vga_card.specs.Cycles.{out_cycle, inp_cycle};
ghost use Rattle.vga_card.specs.Port.{crtc_port};
ghost use Rattle.vga_card.specs.WordCycles.{IsPortReadWithoutEffect, out_low_and_high_byte, inp_low_and_high_byte};
ghost use Rattle.vga_card.specs.WordCycles.{out_word_cycle};
ghost use Rattle.vga_card.specs.WordCycles.{inp_word_cycle};
ghost use Rattle.vga_card.specs.WordCycles.{put_word_cycle, get_word_cycle};

use super::Card;
use crate::port::{Port, port_reached};
use vga_bits::Refusal;
use vga_host::{GRAPHICS_INDEX, OffsetRun, SEQUENCER_DATA, SEQUENCER_INDEX};

/// The low and the high byte of a word.
pub(super) fn bytes_of(v: u16) -> (u8, u8)
    ensures low { result.0 ≡ v % 256 }
    ensures high { result.1 ≡ v / 256 }
{
    ((v % 256) as u8, (v / 256) as u8)
}

/// The word of a low and a high byte.
fn word_of(low: u8, high: u8) -> u16
    ensures { result ≡ low + 256 * high }
{
    low as u16 + 256 * high as u16
}

impl Card {
    /// Writes a byte to a port, and then one to the next port. The second write is not refused once
    /// the first is done.
    #[tactic(auto, using(crate::proofs::CycleLemmas::written_refused))]
    fn out_two_bytes(&mut self, port: u16, low: u8, high: u8) -> Result<(), Refusal>
        requires few { port < 65535 }
        requires second { IsOk (out_cycle (out_cycle self.old port low).0 (port + 1) high).1 }
        ensures { (self.new, result) ≡ out_low_and_high_byte self.old port low high }
    {
        self.out(port, low)?;
        self.out(port + 1, high)
    }

    /// Writes the sequencer's index, and then the register that it selects.
    #[inline(always)]
    #[tactic(auto, unfolding(crate::specs::Cycles::out_reached, crate::specs::Port::port_of))]
    pub(super) fn out_sequencer(&mut self, index: u8, v: u8) -> Result<(), Refusal>
        ensures { (self.new, result) ≡ out_low_and_high_byte self.old 0x3C4 index v }
    {
        if self.host.refuses_data(SEQUENCER_INDEX, index, v) {
            return Err(Refusal::NotInProfile);
        }
        let _ = self.out_at(Port::SequencerIndex, index);
        self.out_at(Port::SequencerData, v)
    }

    /// Writes the graphics controller's index, and then the register that it selects.
    #[inline(always)]
    #[tactic(auto, unfolding(crate::specs::Cycles::out_reached, crate::specs::Port::port_of))]
    pub(super) fn out_graphics(&mut self, index: u8, v: u8) -> Result<(), Refusal>
        ensures { (self.new, result) ≡ out_low_and_high_byte self.old 0x3CE index v }
    {
        if self.host.refuses_data(GRAPHICS_INDEX, index, v) {
            return Err(Refusal::NotInProfile);
        }
        let _ = self.out_at(Port::GraphicsIndex, index);
        self.out_at(Port::GraphicsData, v)
    }

    /// Writes the CRT controller's index, and then the register that it selects.
    #[tactic(auto, unfolding(crate::specs::Cycles::out_reached, crate::specs::Port::port_of, crate::specs::Port::crtc_port_of))]
    fn out_crtc(&mut self, index: u8, v: u8) -> Result<(), Refusal>
        ensures { (self.new, result) ≡ out_low_and_high_byte self.old (crtc_port self.old.misc) index v }
    {
        if self.crtc.refuses_data(index, v) {
            return Err(Refusal::NotInProfile);
        }
        let _ = self.out_at(Port::CrtcIndex, index);
        self.out_at(Port::CrtcData, v)
    }

    /// Writes a word to a port and the next. If either byte would be refused, neither is written.
    /// Whether the second byte would be is judged in the state after the first. If both would be,
    /// the lower-numbered refusal is returned. A word at the last port is `NotDecoded`.
    #[tactic(auto, unfolding(crate::specs::Cycles::out_reached, crate::specs::Port::port_of, crate::specs::Port::crtc_port_of))]
    pub fn out_word(&mut self, port: u16, v: u16) -> Result<(), Refusal>
        ensures { (self.new, result) ≡ out_word_cycle self.old port v }
    {
        let (low, high) = bytes_of(v);
        let Some(reached) = port_reached(self.misc, port) else {
            return Err(Refusal::NotDecoded);
        };
        match reached {
            // The second byte is for the register that the first one selects.
            Port::SequencerIndex => self.out_sequencer(low, high),
            Port::GraphicsIndex => self.out_graphics(low, high),
            Port::CrtcIndex => self.out_crtc(low, high),
            // The second byte is for the DAC, which refuses none.
            Port::SequencerData => self.out_two_bytes(port, low, high),
            Port::DacMask => self.out_two_bytes(port, low, high),
            Port::DacReadIndex => self.out_two_bytes(port, low, high),
            Port::DacWriteIndex => self.out_two_bytes(port, low, high),
            // One of the two bytes is for video subsystem enable.
            Port::MiscellaneousWrite | Port::SubsystemEnable => Err(Refusal::NotInProfile),
            // One of the two bytes is at a port that cannot be written, or at no port.
            Port::Attribute => Err(Refusal::NotDecoded),
            Port::AttributeRegister => Err(Refusal::NotDecoded),
            Port::DacData => Err(Refusal::NotDecoded),
            Port::FeatureControl => Err(Refusal::NotDecoded),
            Port::MiscellaneousRead => Err(Refusal::NotDecoded),
            Port::GraphicsData => Err(Refusal::NotDecoded),
            Port::CrtcData => Err(Refusal::NotDecoded),
            Port::InputStatus1 => Err(Refusal::NotDecoded),
        }
    }

    /// Reads a word from a port and the next. Reading its first byte has no effect, and is not
    /// refused.
    fn inp_word_whose_first_byte_has_no_effect(&mut self, port: u16) -> Result<u16, Refusal>
        requires few { port < 65535 }
        requires quiet { IsPortReadWithoutEffect self.old port }
        ensures { (self.new, result) ≡ inp_low_and_high_byte self.old port }
    {
        match self.inp(port) {
            Ok(low) => match self.inp(port + 1) {
                Ok(high) => Ok(word_of(low, high)),
                Err(refusal) => Err(refusal),
            },
            Err(refusal) => Err(refusal),
        }
    }

    /// Reads a word from a port and the next. It is refused by the same rules as a write, and then
    /// has no effect.
    #[tactic(auto, unfolding(crate::specs::Cycles::inp_reached, crate::specs::Port::port_of, crate::specs::Port::crtc_port_of))]
    pub fn inp_word(&mut self, port: u16) -> Result<u16, Refusal>
        ensures { (self.new, result) ≡ inp_word_cycle self.old port }
    {
        let Some(reached) = port_reached(self.misc, port) else {
            return Err(Refusal::NotDecoded);
        };
        match reached {
            // An index, and then the register or the data that it selects.
            Port::Attribute => self.inp_word_whose_first_byte_has_no_effect(port),
            Port::SequencerIndex => self.inp_word_whose_first_byte_has_no_effect(port),
            Port::DacWriteIndex => self.inp_word_whose_first_byte_has_no_effect(port),
            Port::GraphicsIndex => self.inp_word_whose_first_byte_has_no_effect(port),
            Port::CrtcIndex => self.inp_word_whose_first_byte_has_no_effect(port),
            // The next port is the DAC's mask, whose reading is not refused.
            Port::SequencerData => {
                if self.host.refuses_inp(SEQUENCER_DATA) {
                    return Err(Refusal::NotInProfile);
                }
                self.inp_word_whose_first_byte_has_no_effect(port)
            }
            // One of the two bytes is left out of the profile.
            Port::AttributeRegister => Err(Refusal::NotInProfile),
            Port::MiscellaneousWrite => Err(Refusal::NotInProfile),
            Port::SubsystemEnable => Err(Refusal::NotInProfile),
            Port::DacMask => Err(Refusal::NotInProfile),
            Port::DacReadIndex => Err(Refusal::NotInProfile),
            Port::DacData => Err(Refusal::NotInProfile),
            // The second byte is at no port.
            Port::FeatureControl => Err(Refusal::NotDecoded),
            Port::MiscellaneousRead => Err(Refusal::NotDecoded),
            Port::GraphicsData => Err(Refusal::NotDecoded),
            Port::CrtcData => Err(Refusal::NotDecoded),
            Port::InputStatus1 => Err(Refusal::NotDecoded),
        }
    }

    /// Whether both bytes of a word at an address are decoded.
    pub(super) fn decodes_word(&self, address: u32) -> bool
        requires { address < 4294967295 }
        ensures { result ≡ (is_decoded self.now.host self.now.misc address
            && is_decoded self.now.host self.now.misc (address + 1)) }
    {
        self.host.decodes(address, self.misc) && self.host.decodes(address + 1, self.misc)
    }

    /// Writes a word to an address and the next. If the display memory does not decode both
    /// addresses, the write is refused with `NotDecoded`, and neither byte is written. A word at
    /// the last address is refused likewise.
    pub fn put_word(&mut self, address: u32, v: u16) -> Result<(), Refusal>
        ensures { (self.new, result) ≡ put_word_cycle self.old address v }
    {
        if address == u32::MAX || !self.decodes_word(address) {
            return Err(Refusal::NotDecoded);
        }
        let (low, high) = bytes_of(v);
        self.put(address, low)?;
        self.put(address + 1, high)
    }

    /// Writes a word to an address and the next, if both are decoded and the writes are known to
    /// store their bytes unchanged. It returns whether it did; if not, nothing changes.
    #[inline(always)]
    pub fn put_word_if_unchanged(&mut self, address: u32, v: u16) -> bool
        ensures done { result ≡ true → (self.new, Ok tt) ≡ put_word_cycle self.old address v }
        ensures line { IsAtSameLine self.old self.new }
        ensures left { result ≡ false → self.new ≡ self.old }
    {
        if address == u32::MAX {
            return false;
        }
        let (low, high) = bytes_of(v);
        self.host
            .put_word_if_unchanged(address, low, high, self.misc)
    }

    /// Writes a word as `put_word_if_unchanged` does, if neither byte is stored at an offset of the
    /// run, nor, in text, in the plane of glyphs. The address is not the last.
    #[inline(always)]
    pub(super) fn put_word_if_unchanged_outside(
        &mut self,
        run: OffsetRun,
        address: u32,
        v: u16,
    ) -> bool
        requires { address < 4294967295 }
        ensures done { result ≡ true → (self.new, Ok tt) ≡ put_word_cycle self.old address v }
        ensures decoded { result ≡ true → (is_decoded self.old.host self.old.misc address ≡ true)
            × (is_decoded self.old.host self.old.misc (address + 1) ≡ true) }
        ensures apart { result ≡ true → (is_in_run run (plane_offset self.old.host
            (window_offset self.old.host address)) ≡ false)
            × (is_in_run run (plane_offset self.old.host
            (window_offset self.old.host (address + 1))) ≡ false) }
        ensures beside { result ≡ true → is_graphics self.old.host ≡ false
            → (is_reached self.old.host (window_offset self.old.host address) 2 ≡ false)
            × (is_reached self.old.host (window_offset self.old.host (address + 1)) 2 ≡ false) }
        ensures line { IsAtSameLine self.old self.new }
        ensures left { result ≡ false → self.new ≡ self.old }
    {
        let (low, high) = bytes_of(v);
        self.host
            .put_word_if_unchanged_outside(run, address, low, high, self.misc)
    }

    /// Reads a word from an address and the next in read mode 0. Afterwards the latches are those of
    /// the second byte. It is `None`, and changes nothing, in read mode 1 and where one of the
    /// addresses is not decoded.
    #[inline(always)]
    pub(super) fn get_word_from_planes(&mut self, address: u32) -> Option<u16>
        ensures read { IfSome result (λ v. (self.new, Ok v) ≡ get_word_cycle self.old address) }
        ensures left { result ≡ None → self.new ≡ self.old }
    {
        if address == u32::MAX {
            return None;
        }
        let (low, high) = self.host.get_word_from_planes(address, self.misc)?;
        Some(word_of(low, high))
    }

    /// Reads a word from an address and the next. Afterwards the latches are those of the second
    /// byte. The read is refused by the same rules as a write, and then loads no latch.
    pub fn get_word(&mut self, address: u32) -> Result<u16, Refusal>
        ensures { (self.new, result) ≡ get_word_cycle self.old address }
    {
        if address == u32::MAX || !self.decodes_word(address) {
            return Err(Refusal::NotDecoded);
        }
        let low = self.get(address)?;
        let high = self.get(address + 1)?;
        Ok(word_of(low, high))
    }
}
