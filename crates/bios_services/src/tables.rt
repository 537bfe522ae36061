//! Tables that function 10 answers in the caller's memory: subfunctions 09 and 17.
ghost use Rattle.std.specs.Prelude.{◌≡◌, ◌<◌, IfOk, IfErr, OnErr, None, length, true};
ghost use Rattle.bios_services.specs.Bounds.{ports_bound};
ghost use Rattle.bios_services.specs.Plan.{run};
ghost use Rattle.bios_services.specs.CallReasons.{refusal_of_outcome, ExplainsTable};
ghost use Rattle.bios_services.specs.Tables.{table_refusal as table_refusal_of};
ghost use Rattle.bios_services.specs.Tables.{attribute_register_of_palette_byte as palette_register_of};
ghost use Rattle.bios_services.specs.Tables.{read_palette_registers_in_index_state_plan};
ghost use Rattle.bios_services.specs.Tables.{read_palette_and_overscan_plan};
ghost use Rattle.bios_services.specs.Tables.{read_components_plan, read_entries_plan, table_plan};
ghost use Rattle.bios_services.specs.Tables.{table_allocates_memory};

use crate::call_reason::CallReason;
use crate::colours::refuse_unless_dac_entries;
use crate::cycles::{inp, out, reset_attribute_flip_flop};
use crate::palette::read_attribute_register_in_index_state;
use crate::reply::Table;
use crate::video_registers::{DAC_DATA, DAC_READ_INDEX, OVERSCAN};
use std::alloc::{AllocError, Global};
use vga_bits::Bytes;
use vga_card::Bus;

/// How many bytes the table of palette registers and overscan colour has.
const PALETTE_BYTES: usize = 17;

/// What function 10 answers as a table.
#[derive(Clone, Copy)]
pub enum TableService {
    /// 09: answers the palette registers and the overscan colour.
    ReadPalette,
    /// 17: answers entries of the DAC.
    ReadEntries { first: u16, count: u16 },
}

/// Refuses a subfunction that answers a table, if there is a reason.
pub(crate) fn table_refusal(service: TableService) -> Result<(), CallReason>
    ensures refusal { refusal_of_outcome result ≡ table_refusal_of service }
    ensures reason { IfErr result (ExplainsTable service) }
{
    match service {
        TableService::ReadPalette => Ok(()),
        TableService::ReadEntries { first, count } => refuse_unless_dac_entries(first, count),
    }
}

/// The register whose value is byte i of the palette.
fn attribute_register_of_palette_byte(i: usize) -> u8
    requires { i < 17 }
    ensures value { result ≡ palette_register_of i }
    ensures small { result < 32 }
{
    if i == 16 { OVERSCAN } else { i as u8 }
}

/// Reads the palette registers and the overscan colour; the attribute controller expects an index.
#[tactic(auto, using(crate::proofs::PlanRuns::run_bind), unfolding(crate::specs::Tables::read_palette_registers_in_index_state_plan))]
fn read_palette_registers_in_index_state<B: Bus>(bus: &mut B, port: u16, values: &mut [u8])
    requires port { port < ports_bound }
    requires whole { length values.old ≡ 17 }
    ensures { (bus.new, values.new) ≡ run B.meaning (read_palette_registers_in_index_state_plan port) bus.old }
{
    for i in 0..values.len() {
        values[i] = read_attribute_register_in_index_state(
            bus,
            port,
            attribute_register_of_palette_byte(i),
        );
    }
}

/// 09: reads the palette registers and the overscan colour.
#[tactic(auto, using(crate::proofs::PlanRuns::run_bind), unfolding(crate::specs::Tables::read_palette_and_overscan_plan))]
fn read_palette_and_overscan<B: Bus>(bus: &mut B, port: u16) -> [u8; PALETTE_BYTES]
    requires { port < ports_bound }
    ensures { (bus.new, result) ≡ run B.meaning (read_palette_and_overscan_plan port) bus.old }
{
    let mut values = [0u8; PALETTE_BYTES];
    reset_attribute_flip_flop(bus, port);
    read_palette_registers_in_index_state(bus, port, &mut values);
    values
}

/// Reads bytes from the DAC's data.
#[tactic(auto, using(crate::proofs::PlanRuns::run_bind), unfolding(crate::specs::Tables::read_components_plan))]
fn read_components<B: Bus>(bus: &mut B, values: &mut Bytes)
    ensures { (bus.new, values.new) ≡ run B.meaning (read_components_plan (length values.old))
        bus.old }
{
    for i in 0..values.as_slice().len() {
        let value = inp(bus, DAC_DATA);
        values.set(i, value);
    }
}

/// 17: reads red, green and blue of `count` entries from entry `first` on. It allocates memory for
/// them before the first cycle, and none for no entries.
#[tactic(auto, using(crate::proofs::PlanRuns::run_bind), unfolding(crate::specs::Tables::read_entries_plan, vga_bits::specs::Bytes::zeros))]
fn read_entries<B: Bus>(
    alloc: Global,
    bus: &mut B,
    first: u8,
    count: u16,
) -> Result<Bytes, AllocError>
    ensures ok { IfOk result (λ values. (bus.new, values)
        ≡ run B.meaning (read_entries_plan first count) bus.old) }
    ensures err { OnErr result ((bus.new ≡ bus.old) × (0 < count)) }
{
    let Ok(mut values) = Bytes::zeros(alloc, 3 * count as usize) else {
        return Err(AllocError);
    };
    out(bus, DAC_READ_INDEX, first);
    read_components(bus, &mut values);
    Ok(values)
}

/// Reads the table that a subfunction of function 10 answers: the palette registers with the
/// overscan colour, or entries of the DAC. The subfunction is not refused. Only 17 allocates
/// memory, if there is an entry to read.
#[tactic(auto, using(crate::proofs::PlanRuns::run_bind), unfolding(crate::specs::Tables::table_plan))]
pub(crate) fn read_table<B: Bus>(
    alloc: Global,
    bus: &mut B,
    port: u16,
    service: TableService,
) -> Result<Table, AllocError>
    requires port { port < ports_bound }
    requires allowed { table_refusal_of service ≡ None }
    ensures ok { IfOk result (λ table. (bus.new, table)
        ≡ run B.meaning (table_plan service port) bus.old) }
    ensures err { OnErr result ((bus.new ≡ bus.old) × (table_allocates_memory service ≡ true)) }
{
    match service {
        TableService::ReadPalette => Ok(Table::Palette(read_palette_and_overscan(bus, port))),
        TableService::ReadEntries { first, count } => {
            Ok(Table::Dac(read_entries(alloc, bus, first as u8, count)?))
        }
    }
}
