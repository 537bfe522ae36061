//! Why a call is refused, told without a cycle.
ghost use Rattle.std.specs.Prelude.{◌≡◌, ◌⊎◌, IfSome, Some};
ghost use Rattle.vga_bits.specs.declared.refusal.Refusal.TheVariants.{BadMode, BadHeight, NoMode};
ghost use Rattle.bios_modes.specs.Heights.{mode_row_at_height as mode_row_at_height_of};
ghost use Rattle.bios_modes.specs.Modes.{mode_row as mode_row_of};
ghost use Rattle.bios_modes.specs.Valid.{IsValid};
ghost use Rattle.bios_services.specs.declared.call.Call.TheVariants.{ReadTable, LoadGlyphs, InMode};
ghost use Rattle.bios_services.specs.Calls.{call_of};
ghost use Rattle.bios_services.specs.GlyphLoads.{load_refusal};
ghost use Rattle.bios_services.specs.Reasons.{◌or◌};
ghost use Rattle.bios_services.specs.CallReasons.{call_refusal, refusal_of, refusal_of_reason};
ghost use Rattle.bios_services.specs.CallReasons.{unless_row, ExplainsCall};
ghost use Rattle.bios_services.specs.CallReasons.{ExplainsLoadBesidesHeight, IsNoHeight};
ghost use Rattle.bios_services.specs.CallReasons.{IsNoModeSet, IsNoSuchMode};

use crate::call::{Call, Service, decode};
use crate::call_reason::CallReason;
use crate::glyph_load::GlyphLoad;
use crate::refusals::{reason_of_unknown_call, refusal_in_mode};
use crate::regs::{Regs, high};
use crate::tables::{TableService, table_refusal};
use bios_modes::{Bda, mode_row, mode_row_at_height};

/// Why a mode can't be set, if it can't.
fn why_no_mode(mode: u8) -> Option<CallReason>
    ensures refusal { refusal_of_reason result ≡ unless_row BadMode (mode_row_of mode) }
    ensures reason { IfSome result (IsNoSuchMode mode) }
{
    match mode_row(mode) {
        Some(_) => None,
        None => Some(CallReason::NoSuchMode { mode }),
    }
}

/// That no mode is set, as a call is told that needs one.
fn no_mode_set(regs: Regs) -> CallReason
    ensures refusal { refusal_of result ≡ NoMode }
    ensures reason { IsNoModeSet regs result }
{
    CallReason::NoModeSet {
        function: high(regs.ax),
    }
}

/// Why a table is not answered, if it is not.
fn why_no_table(bda: &Bda, regs: Regs, service: TableService, len: usize) -> Option<CallReason>
    ensures refusal { refusal_of_reason result
        ≡ call_refusal (Some (ReadTable service)) bda.now len }
    ensures reason { IfSome result (ExplainsCall (Some (ReadTable service)) bda.now regs len) }
{
    if bda.mode() == 0 {
        return Some(no_mode_set(regs));
    }
    match table_refusal(service) {
        Ok(()) => None,
        Err(reason) => Some(reason),
    }
}

/// Why glyphs are not loaded in a mode, if they are not.
fn why_no_load_in_mode(mode: u8, load: GlyphLoad, len: usize) -> Option<CallReason>
    ensures refusal { refusal_of_reason result ≡ (load_refusal load mode len
        or unless_row BadHeight (mode_row_at_height_of mode load.height)) }
    ensures reason { IfSome result (λ reason. ExplainsLoadBesidesHeight load mode len reason
        ⊎ IsNoHeight load mode reason) }
{
    if let Err(reason) = load.refusal(mode, len) {
        return Some(reason);
    }
    let height = load.height;
    match mode_row_at_height(mode, height as u16) {
        Some(_) => None,
        None => Some(CallReason::NoHeight { height, mode }),
    }
}

/// Why glyphs are not loaded, if they are not.
fn why_no_load(bda: &Bda, regs: Regs, load: GlyphLoad, len: usize) -> Option<CallReason>
    ensures refusal { refusal_of_reason result
        ≡ call_refusal (Some (LoadGlyphs load)) bda.now len }
    ensures reason { IfSome result (ExplainsCall (Some (LoadGlyphs load)) bda.now regs len) }
{
    if bda.mode() == 0 {
        return Some(no_mode_set(regs));
    }
    why_no_load_in_mode(bda.mode(), load, len)
}

/// Why a service is not done, if it is not.
#[tactic(auto, using(crate::proofs::BoundLemmas::set_of_valid))]
fn why_no_service(bda: &Bda, regs: Regs, service: Service, len: usize) -> Option<CallReason>
    requires { IsValid bda.now }
    ensures refusal { refusal_of_reason result
        ≡ call_refusal (Some (InMode service)) bda.now len }
    ensures reason { IfSome result (ExplainsCall (Some (InMode service)) bda.now regs len) }
{
    if bda.mode() == 0 {
        return Some(no_mode_set(regs));
    }
    match refusal_in_mode(service.service_with_page_or_0_if_only_one(bda), bda, len) {
        Ok(()) => None,
        Err(reason) => Some(reason),
    }
}

/// Why the call that the registers ask for would be refused with a block of `len` bytes; `None` if
/// it would be done. Nothing is called. The BIOS data must be valid.
///
/// From the IBM PS/2 and PC BIOS Interface Technical Reference, "Interrupt 10H - Video".
pub fn why_call(bda: &Bda, regs: Regs, len: usize) -> Option<CallReason>
    requires { IsValid bda.now }
    ensures refusal { refusal_of_reason result ≡ call_refusal (call_of regs) bda.now len }
    ensures reason { IfSome result (ExplainsCall (call_of regs) bda.now regs len) }
{
    match decode(regs) {
        None => Some(reason_of_unknown_call(bda, regs)),
        Some(Call::SetMode { mode, .. }) => why_no_mode(mode),
        Some(Call::ReadTable(service)) => why_no_table(bda, regs, service, len),
        Some(Call::LoadGlyphs(load)) => why_no_load(bda, regs, load, len),
        Some(Call::InMode(service)) => why_no_service(bda, regs, service, len),
    }
}
