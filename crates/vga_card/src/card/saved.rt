//! The whole adapter as bytes.
ghost use Rattle.std.specs.Prelude.{◌≡◌, ◌+◌, ◌*◌, ◌≤◌, ◌↔◌, IsTrue, length, take, slice_index};
ghost use Rattle.std.specs.Prelude.{IfOk, IsOkUnless};
ghost use Rattle.vga_bits.specs.Saved.{IsPut};
ghost use Rattle.vga_card.specs.Dots.{dots_of_frame_so_far};
ghost use Rattle.vga_card.specs.Saved.{saved_card, past_misc, past_crtc, past_attr, past_dac};
ghost use Rattle.vga_card.specs.Saved.{past_host, IsSavedCard, card_from};
ghost use Rattle.vga_card.specs.FreshCanvas.{without_dots_of_ended_frame};

use super::Card;
use super::cycles::MISCELLANEOUS_MASK;
use crate::canvas::saved::{WIDTHS_LEN, are_saved_dots, put_zero_widths};
use std::alloc::Global;
use vga_attr::Attr;
use vga_bits::{Fault, put_byte};
use vga_crtc::Crtc;
use vga_dac::Dac;
use vga_host::Host;

/// The bytes of each part of a saved adapter.
#[derive(Clone, Copy)]
struct Parts<'a> {
    misc: u8,
    crtc: &'a [u8],
    attr: &'a [u8],
    dac: &'a [u8],
    host: &'a [u8],
    dots: &'a [u8],
}

/// The bytes of each part. Those of the dots are what remains after the parts of fixed size.
fn parts_of(bytes: &[u8]) -> Parts<'_>
    requires { 265046 ≤ length bytes.now }
    ensures misc { result.misc ≡ slice_index bytes.now 0 }
    ensures crtc { result.crtc.now ≡ take 37 (past_misc bytes.now) }
    ensures attr { result.attr.now ≡ take 23 (past_crtc bytes.now) }
    ensures dac { result.dac.now ≡ take 773 (past_attr bytes.now) }
    ensures host { result.host.now ≡ take 262164 (past_dac bytes.now) }
    ensures dots { result.dots.now ≡ past_host bytes.now }
    ensures widths { 2048 ≤ length result.dots.now }
{
    let (misc, rest) = bytes.split_at(1);
    let (crtc, rest) = rest.split_at(Crtc::SAVED_LEN);
    let (attr, rest) = rest.split_at(Attr::SAVED_LEN);
    let (dac, rest) = rest.split_at(Dac::SAVED_LEN);
    let (host, dots) = rest.split_at(Host::SAVED_LEN);
    Parts {
        misc: misc[0],
        crtc,
        attr,
        dac,
        host,
        dots,
    }
}

impl Card {
    /// How many bytes an adapter has when you save it at the first dot of a frame. At any other dot
    /// it has three more for each dot drawn.
    pub const SAVED_LEN: usize = 1
        + Crtc::SAVED_LEN
        + Attr::SAVED_LEN
        + Dac::SAVED_LEN
        + Host::SAVED_LEN
        + WIDTHS_LEN;

    /// How many bytes the adapter has if you save it now.
    pub fn saved_len(&self) -> usize
        ensures value { result ≡ length (saved_card self.now) }
        ensures dots { result ≡ 265046 + 3 * length (dots_of_frame_so_far self.now) }
        ensures few { result ≤ 7342934 }
    {
        self.restore_gives_what_was_saved();
        let dots = if self.crtc.beam().is_first_dot_of_frame() {
            0
        } else {
            self.canvas.saved_len()
        };
        Card::SAVED_LEN + dots
    }

    /// Puts the bytes of the adapter into a slice from index `at` on, where there is room for them.
    /// It returns the index after them. The order is: miscellaneous output register, CRT
    /// controller, attribute controller, DAC, host path, and the dots drawn until now of the frame
    /// under way. At the frame's first dot there are no dots.
    #[tactic(auto, unfolding(crate::specs::Saved::saved_card))]
    pub fn save(&self, out: &mut [u8], at: usize) -> usize
        requires { at + (265046 + 3 * length (dots_of_frame_so_far self.now)) ≤ length out.old }
        ensures { IsPut out.old out.new at result (saved_card self.now) }
    {
        let at = put_byte(out, at, self.misc);
        let at = self.crtc.save(out, at);
        let at = self.attr.save(out, at);
        let at = self.dac.save(out, at);
        let at = self.host.save(out, at);
        if self.crtc.beam().is_first_dot_of_frame() {
            put_zero_widths(out, at)
        } else {
            self.canvas.save(out, at)
        }
    }

    /// Whether some bytes are those of an adapter. Each part must be within its bounds, and dots
    /// may be drawn up to the beam only.
    pub fn is_saved(bytes: &[u8]) -> bool
        ensures { IsTrue result ↔ IsSavedCard bytes.now }
    {
        if bytes.len() < Card::SAVED_LEN {
            return false;
        }
        let parts = parts_of(bytes);
        if parts.misc & MISCELLANEOUS_MASK != parts.misc {
            return false;
        }
        if !Crtc::is_saved(parts.crtc) || !Attr::is_saved(parts.attr) {
            return false;
        }
        if !Dac::is_saved(parts.dac) || !Host::is_saved(parts.host) {
            return false;
        }
        are_saved_dots(Crtc::saved_beam(parts.crtc), parts.dots)
    }

    /// Restores all parts and the dots drawn from the bytes of an adapter. It allocates no memory.
    #[tactic(auto, unfolding(crate::specs::Saved::card_from))]
    pub fn restore(&mut self, bytes: &[u8])
        requires { IsSavedCard bytes.now }
        ensures { self.new ≡ card_from bytes.now }
    {
        let parts = parts_of(bytes);
        self.misc = parts.misc;
        self.crtc.restore(parts.crtc);
        self.attr.restore(parts.attr);
        self.dac.restore(parts.dac);
        self.host.restore(parts.host);
        self.canvas.restore(self.crtc.beam(), parts.dots);
    }

    /// Saves the adapter into a slice of `saved_len` bytes.
    #[tactic(auto, using(vga_bits::proofs::SavedLemmas::put_whole))]
    fn save_whole(&self, out: &mut [u8])
        requires { length out.old ≡ length (saved_card self.now) }
        ensures { out.new ≡ saved_card self.now }
    {
        self.restore_gives_what_was_saved();
        self.save(out, 0);
    }

    /// The bytes of the adapter. It fails only with `OutOfMemory`.
    fn saved_bytes(&self, alloc: Global) -> Result<Vec<u8>, Fault>
        ensures ok { IfOk result (λ bytes. bytes.items ≡ saved_card self.now) }
        ensures err { IsOkUnless result Fault.OutOfMemory }
    {
        let Ok(mut bytes) = vec![in alloc; 0u8; self.saved_len()] else {
            return Err(Fault::OutOfMemory);
        };
        self.save_whole(bytes.as_mut_slice());
        Ok(bytes)
    }

    /// A copy of the adapter, without the dots that no step can see any more. It fails only with
    /// `OutOfMemory`.
    #[tactic(auto, using(crate::proofs::SavedCards::saved_there))]
    pub fn copy(&self, alloc: Global) -> Result<Card, Fault>
        ensures ok { IfOk result (λ card. card ≡ without_dots_of_ended_frame self.now) }
        ensures err { IsOkUnless result Fault.OutOfMemory }
    {
        self.restore_gives_what_was_saved();
        let bytes = self.saved_bytes(alloc)?;
        let mut copy = Card::new(alloc)?;
        copy.restore(bytes.as_slice());
        Ok(copy)
    }

    /// A saved adapter is restored in full, except for dots that no step can see any more. The
    /// clauses are for proofs: nothing runs.
    pub fn restore_gives_what_was_saved(&self)
        ensures saved { IsSavedCard (saved_card self.now) }
        ensures back { card_from (saved_card self.now) ≡ without_dots_of_ended_frame self.now }
        ensures len { length (saved_card self.now) ≡ 265046 + 3 * length (dots_of_frame_so_far
            self.now) }
    {
        self.crtc.restore_gives_what_was_saved();
        self.attr.restore_gives_what_was_saved();
        self.dac.restore_gives_what_was_saved();
        self.host.restore_gives_what_was_saved();
        self.canvas.restore_gives_what_was_saved(self.crtc.beam());
    }
}
