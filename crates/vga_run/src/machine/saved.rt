//! Saving a machine as bytes, and restoring it: a header, the BIOS data, and the adapter.
ghost use Rattle.std.specs.Prelude.{◌≡◌, ◌+◌, ◌<◌, ◌≤◌, ◌↔◌, ◌++◌, length};
ghost use Rattle.std.specs.Prelude.{IsTrue, IsOk, OnOk, IfErr};
ghost use Rattle.vga_bits.specs.Saved.{IsPut};
ghost use Rattle.vga_card.specs.Bounds.{IsCard};
ghost use Rattle.bios_modes.specs.Valid.{IsValid};
ghost use Rattle.vga_run.specs.Saved.{saved_mark, four_bytes_of_number};
ghost use Rattle.vga_run.specs.Saved.{number_of_four_bytes as long_of, saved_machine};
ghost use Rattle.vga_run.specs.Saved.{HasMagic, HasVersion, HasLength, HasParts, IsSavedMachine};
ghost use Rattle.vga_run.specs.Saved.{IsStateFault, machine_from, machine_without_unseen_dots};

use super::Machine;
use bios_modes::Bda;
use vga_bits::{StateFault, put_bytes, put_word, word_at};
use vga_card::Card;

/// The mark of a saved machine, and the version of the format.
const MARK: [u8; 5] = [b'Z', b'A', b'K', b'S', 1];

/// How many bytes the header has: the mark, the version, and the length of the whole.
const HEADER_LEN: usize = 9;

/// Puts the header at the beginning of a slice. The saved machine has `len` bytes in all.
fn put_header(out: &mut [u8], len: usize) -> usize
    requires few { len < 4294967296 }
    requires room { 9 ≤ length out.old }
    ensures put { IsPut out.old out.new 0 result (saved_mark ++ four_bytes_of_number len) }
    ensures end { result ≡ 9 }
{
    let at = put_bytes(out, 0, &MARK);
    let at = put_word(out, at, (len % 65_536) as u16);
    put_word(out, at, (len / 65_536) as u16)
}

/// Whether some bytes begin with the mark of a saved machine.
fn has_magic(bytes: &[u8]) -> bool
    ensures { IsTrue result ↔ HasMagic bytes.now }
{
    bytes.len() >= 4
        && bytes[0] == MARK[0]
        && bytes[1] == MARK[1]
        && bytes[2] == MARK[2]
        && bytes[3] == MARK[3]
}

/// Whether some bytes have this version of the format.
fn has_version(bytes: &[u8]) -> bool
    ensures { IsTrue result ↔ HasVersion bytes.now }
{
    bytes.len() > 4 && bytes[4] == MARK[4]
}

/// The number of four bytes at `at`, low byte first.
fn number_of_four_bytes(bytes: &[u8], at: usize) -> usize
    requires { at + 4 ≤ length bytes.now }
    ensures { result ≡ long_of bytes.now at }
{
    word_at(bytes, at) as usize + 65_536 * word_at(bytes, at + 2) as usize
}

/// Whether some bytes are as many as their header says, and no fewer than the smallest saved
/// machine.
fn has_length(bytes: &[u8]) -> bool
    ensures { IsTrue result ↔ HasLength bytes.now }
{
    bytes.len() >= Machine::SAVED_LEN && bytes.len() == number_of_four_bytes(bytes, 5)
}

/// Whether some bytes, no fewer than the smallest saved machine, contain the parts of a machine.
fn has_parts(bytes: &[u8]) -> bool
    requires { 40 ≤ length bytes.now }
    ensures { IsTrue result ↔ HasParts bytes.now }
{
    let rest = bytes.split_at(HEADER_LEN).1;
    let (bda, card) = rest.split_at(Bda::SAVED_LEN);
    Bda::is_saved(bda) && Card::is_saved(card)
}

/// Checks that some bytes are a saved machine.
fn check_saved_machine(bytes: &[u8]) -> Result<(), StateFault>
    ensures ok { IsOk result ↔ IsSavedMachine bytes.now }
    ensures err { IfErr result (λ e. IsStateFault e bytes.now) }
{
    if !has_magic(bytes) {
        return Err(StateFault::BadMagic);
    }
    if !has_version(bytes) {
        return Err(StateFault::BadVersion);
    }
    if !has_length(bytes) {
        return Err(StateFault::BadLength);
    }
    if !has_parts(bytes) {
        return Err(StateFault::BadPart);
    }
    Ok(())
}

impl Machine {
    /// The length in bytes of a machine that is saved at the first dot of a frame. Elsewhere there
    /// are three more bytes for each dot drawn of the frame under way.
    pub const SAVED_LEN: usize = HEADER_LEN + Bda::SAVED_LEN + Card::SAVED_LEN;

    /// The length in bytes that the machine has if it is saved now.
    pub fn saved_len(&self) -> usize
        ensures value { result ≡ length (saved_machine self.now) }
        ensures few { result < 4294967296 }
    {
        self.bda.restore_gives_what_was_saved();
        HEADER_LEN + Bda::SAVED_LEN + self.card.saved_len()
    }

    /// Saves the machine into a slice of `saved_len` bytes: a header, the BIOS data, and the
    /// adapter with the dots drawn of the frame under way. The fonts are not saved.
    pub fn save(&self, out: &mut [u8])
        requires { length out.old ≡ length (saved_machine self.now) }
        ensures { out.new ≡ saved_machine self.now }
    {
        self.bda.restore_gives_what_was_saved();
        self.card.restore_gives_what_was_saved();
        let len = self.saved_len();
        let at = put_header(out, len);
        let at = self.bda.save(out, at);
        self.card.save(out, at);
    }

    /// Restores the adapter and the BIOS data of a saved machine. The fonts stay. It allocates
    /// nothing.
    ///
    /// # Errors
    ///
    /// Bytes that are not a saved machine are refused, and nothing changes. If they have several
    /// faults, the first in this order is returned:
    ///
    /// - `BadMagic`: they do not begin with `ZAKS`.
    /// - `BadVersion`: their version is not 1.
    /// - `BadLength`: they are not as many as their header says, or fewer than the smallest saved
    ///   machine.
    /// - `BadPart`: a register has bits that it does not keep, the beam or a count is out of its
    ///   bounds, there are more dots than the beam has passed, or the BIOS data are not valid.
    pub fn restore(&mut self, bytes: &[u8]) -> Result<(), StateFault>
        ensures ok { IsOk result ↔ IsSavedMachine bytes.now }
        ensures restored { OnOk result (self.new ≡ machine_from self.old.fonts bytes.now) }
        ensures bounds { OnOk result (IsCard self.new.card × IsValid self.new.bda) }
        ensures err { IfErr result (λ e. IsStateFault e bytes.now × (self.new ≡ self.old)) }
    {
        check_saved_machine(bytes)?;
        self.restore_parts(bytes);
        Ok(())
    }

    /// Takes adapter and BIOS data from the bytes of a saved machine.
    #[tactic(auto, unfolding(crate::specs::Saved::machine_from))]
    fn restore_parts(&mut self, bytes: &[u8])
        requires { IsSavedMachine bytes.now }
        ensures restored { self.new ≡ machine_from self.old.fonts bytes.now }
        ensures card { IsCard self.new.card }
        ensures bda { IsValid self.new.bda }
    {
        let rest = bytes.split_at(HEADER_LEN).1;
        let (bda, card) = rest.split_at(Bda::SAVED_LEN);
        self.bda.restore(bda);
        self.card.restore(card);
        self.card.bounds();
    }

    /// A saved machine is restored whole, except for dots that no step can see any more; and a
    /// machine with valid BIOS data is saved as bytes that can be restored. The clauses are for
    /// proofs: nothing runs.
    pub fn restore_gives_what_was_saved(&self)
        ensures saved { IsValid self.now.bda → IsSavedMachine (saved_machine self.now) }
        ensures back { machine_from self.now.fonts (saved_machine self.now)
            ≡ machine_without_unseen_dots self.now }
    {
        self.bda.restore_gives_what_was_saved();
        self.card.restore_gives_what_was_saved();
    }
}
