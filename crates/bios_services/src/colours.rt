//! Function 10, by its subfunctions.
ghost use Rattle.std.specs.Prelude.{◌≡◌, ◌<◌, IfErr, None, length};
ghost use Rattle.bios_services.specs.Bounds.{ports_bound};
ghost use Rattle.bios_services.specs.Plan.{run};
ghost use Rattle.bios_services.specs.CallReasons.{refusal_of_outcome, ExplainsColours};
ghost use Rattle.bios_services.specs.Colours.{refuse_unless_palette_register as no_register_of};
ghost use Rattle.bios_services.specs.Colours.{refuse_unless_dac_entry as no_entry_of, refuse_unless_dac_entries as no_entries_of};
ghost use Rattle.bios_services.specs.Colours.{colour_block_len, colour_refusal_besides_block as colour_reason_of};
ghost use Rattle.bios_services.specs.Colours.{colour_refusal, read_entry_plan};
ghost use Rattle.bios_services.specs.Colours.{read_attribute_register_into_bh, read_dac_mask_into_bl, colours_plan};

use crate::call_reason::CallReason;
use crate::cycles::{inp, out};
use crate::dac::{set_entries, set_entry};
use crate::palette::{read_register, set_attribute_register, set_blinking, set_palette};
use crate::reasons::refuse_unless;
use crate::regs::{Regs, with_high, with_low};
use crate::video_registers::{DAC_DATA, DAC_MASK, DAC_READ_INDEX, OVERSCAN};
use vga_card::Bus;

/// A subfunction of function 10 that answers registers alone.
#[derive(Clone, Copy)]
pub enum ColourService {
    /// 00: sets a palette register.
    SetRegister {
        register: u8,
        value: u8,
    },
    /// 01: sets the overscan colour.
    SetOverscan {
        value: u8,
    },
    /// 02: sets the palette registers and the overscan colour.
    SetPalette,
    /// 03: makes bit 7 of an attribute mean blinking, or a bright background.
    SetBlinking {
        blinking: u8,
    },
    /// 07: answers a palette register.
    ReadRegister {
        register: u8,
    },
    /// 08: answers the overscan colour.
    ReadOverscan,
    /// 10: sets an entry of the DAC.
    SetEntry {
        entry: u16,
        red: u8,
        green: u8,
        blue: u8,
    },
    /// 12: sets entries of the DAC.
    SetEntries {
        first: u16,
        count: u16,
    },
    /// 15: answers an entry of the DAC.
    ReadEntry {
        entry: u16,
    },
    /// 18: sets the DAC's mask.
    SetMask {
        mask: u8,
    },
    /// 19: answers the DAC's mask.
    ReadMask,
}

/// Refuses a number that is none of the palette registers.
fn refuse_unless_palette_register(register: u8) -> Result<(), CallReason>
    ensures refusal { refusal_of_outcome result ≡ no_register_of register }
    ensures reason { IfErr result (λ reason. reason ≡ CallReason.NoPaletteRegister register) }
{
    refuse_unless(register < 0x10, CallReason::NoPaletteRegister { register })
}

/// Refuses a number that is none of the DAC's entries.
fn refuse_unless_dac_entry(entry: u16) -> Result<(), CallReason>
    ensures refusal { refusal_of_outcome result ≡ no_entry_of entry }
    ensures reason { IfErr result (λ reason. reason ≡ CallReason.NoEntry entry) }
{
    refuse_unless(entry < 0x100, CallReason::NoEntry { entry })
}

/// Refuses entries that the DAC does not have: the first one, or any of `count` from it on.
pub(crate) fn refuse_unless_dac_entries(first: u16, count: u16) -> Result<(), CallReason>
    ensures refusal { refusal_of_outcome result ≡ no_entries_of first count }
    ensures reason { IfErr result (λ reason. reason ≡ CallReason.NoEntries count first) }
{
    refuse_unless(
        first < 0x100 && first as u32 + count as u32 <= 0x100,
        CallReason::NoEntries { count, first },
    )
}

impl ColourService {
    /// How many bytes the block of a subfunction has, if it reads one.
    pub(crate) fn block(self) -> Option<usize>
        ensures { result ≡ colour_block_len self }
    {
        match self {
            ColourService::SetPalette => Some(17),
            ColourService::SetEntries { count, .. } => Some(3 * count as usize),
            _ => None,
        }
    }
}

/// Refuses a subfunction, whatever its block, if there is a reason.
pub(crate) fn colour_refusal_besides_block(service: ColourService) -> Result<(), CallReason>
    ensures refusal { refusal_of_outcome result ≡ colour_reason_of service }
    ensures reason { IfErr result (ExplainsColours service) }
{
    match service {
        ColourService::SetRegister { register, .. } => refuse_unless_palette_register(register),
        ColourService::ReadRegister { register } => refuse_unless_palette_register(register),
        ColourService::SetBlinking { blinking } => {
            refuse_unless(blinking <= 1, CallReason::NoBlinking { value: blinking })
        }
        ColourService::SetEntry { entry, .. } => refuse_unless_dac_entry(entry),
        ColourService::ReadEntry { entry } => refuse_unless_dac_entry(entry),
        ColourService::SetEntries { first, count } => refuse_unless_dac_entries(first, count),
        ColourService::SetOverscan { .. }
        | ColourService::SetPalette
        | ColourService::ReadOverscan
        | ColourService::SetMask { .. }
        | ColourService::ReadMask => Ok(()),
    }
}

/// 15: reads an entry of the DAC, red into DH, green into CH and blue into CL.
#[tactic(auto, using(crate::proofs::PlanRuns::run_bind), unfolding(crate::specs::Colours::read_entry_plan))]
fn read_entry<B: Bus>(bus: &mut B, entry: u8, regs: &mut Regs)
    ensures { (bus.new, regs.new) ≡ run B.meaning (read_entry_plan entry regs.old) bus.old }
{
    out(bus, DAC_READ_INDEX, entry);
    let red = inp(bus, DAC_DATA);
    let green = inp(bus, DAC_DATA);
    let blue = inp(bus, DAC_DATA);
    regs.cx = 256 * green as u16 + blue as u16;
    regs.dx = with_high(regs.dx, red);
}

/// 07 and 08: reads a register of the attribute controller into BH.
#[tactic(auto, using(crate::proofs::PlanRuns::run_bind), unfolding(crate::specs::Colours::read_attribute_register_into_bh))]
fn answer_register<B: Bus>(bus: &mut B, port: u16, register: u8, regs: &mut Regs)
    requires port { port < ports_bound }
    requires register { register < 32 }
    ensures { (bus.new, regs.new) ≡ run B.meaning (read_attribute_register_into_bh port register regs.old)
        bus.old }
{
    let value = read_register(bus, port, register);
    regs.bx = with_high(regs.bx, value);
}

/// 19: reads the DAC's mask into BL.
#[tactic(auto, using(crate::proofs::PlanRuns::run_bind), unfolding(crate::specs::Colours::read_dac_mask_into_bl))]
fn answer_mask<B: Bus>(bus: &mut B, regs: &mut Regs)
    ensures { (bus.new, regs.new) ≡ run B.meaning (read_dac_mask_into_bl regs.old) bus.old }
{
    let mask = inp(bus, DAC_MASK);
    regs.bx = with_low(regs.bx, mask);
}

/// Does a subfunction of function 10 that is not refused, and answers its registers.
#[tactic(auto, using(crate::proofs::PlanRuns::run_bind), unfolding(crate::specs::Colours::colours_plan))]
pub(crate) fn perform_colours<B: Bus>(
    bus: &mut B,
    port: u16,
    service: ColourService,
    regs: &mut Regs,
    block: &[u8],
)
    requires port { port < ports_bound }
    requires allowed { colour_refusal service (length block.now) ≡ None }
    ensures { (bus.new, regs.new) ≡ run B.meaning (colours_plan service port regs.old block.now)
        bus.old }
{
    match service {
        ColourService::SetRegister { register, value } => set_attribute_register(
            bus, port, register, value,
        ),
        ColourService::SetOverscan { value } => set_attribute_register(bus, port, OVERSCAN, value),
        ColourService::SetPalette => set_palette(bus, port, block),
        ColourService::SetBlinking { blinking } => set_blinking(bus, port, blinking),
        ColourService::ReadRegister { register } => answer_register(bus, port, register, regs),
        ColourService::ReadOverscan => answer_register(bus, port, OVERSCAN, regs),
        ColourService::SetEntry {
            entry,
            red,
            green,
            blue,
        } => set_entry(bus, entry as u8, red, green, blue),
        ColourService::SetEntries { first, .. } => set_entries(bus, first as u8, block),
        ColourService::ReadEntry { entry } => read_entry(bus, entry as u8, regs),
        ColourService::SetMask { mask } => out(bus, DAC_MASK, mask),
        ColourService::ReadMask => answer_mask(bus, regs),
    }
}
