//! Why a cycle of a byte at a port is refused.
ghost use Rattle.std.specs.Prelude.{◌≡◌, IfSome, None, Some};
ghost use Rattle.vga_bits.specs.declared.refusal.Refusal.TheVariants.{NotDecoded};
ghost use Rattle.vga_card.specs.Port.{port_of};
ghost use Rattle.vga_card.specs.Cycles.{out_at, inp_at, out_cycle, inp_cycle};
ghost use Rattle.vga_explain.specs.CycleReasons.{refusal_of, refusal_of_reason, refusal_in};
ghost use Rattle.vga_explain.specs.Ports.{ExplainsNoPort, ExplainsOut, ExplainsInp};

use crate::cycle_reason::CycleReason;
use crate::data::{why_data, why_no_register};
use crate::group::Group;
use crate::left_out::LeftOut;
use vga_bits::is_set;
use vga_card::{Card, Port, Regs, crtc_port, port_reached};

/// The offsets of the CRT controller's data port and of input status 1 from its index port.
const CRTC_DATA: u16 = 1;

const INPUT_STATUS_1: u16 = 6;

/// How many registers the low bits of the attribute controller's index select from.
pub(crate) const ATTRIBUTE_REGISTERS: u8 = 32;

/// Why a port is not the adapter's now.
#[tactic(auto, unfolding(vga_card::specs::Port::crtc_port_of))]
pub(crate) fn why_no_port(card: &Card, port: u16) -> CycleReason
    requires { port_of card.now.misc port ≡ None }
    ensures refusal { refusal_of result ≡ NotDecoded }
    ensures reason { ExplainsNoPort card.now port result }
{
    let misc = card.regs().misc;
    let base = crtc_port(misc);
    let other = crtc_port(if is_set(misc, 0) { 0 } else { 1 });
    let there = if port == other {
        base
    } else if port == other + CRTC_DATA {
        base + CRTC_DATA
    } else if port == other + INPUT_STATUS_1 {
        base + INPUT_STATUS_1
    } else {
        return CycleReason::NoPort { port };
    };
    CycleReason::OtherCrtController { port, base, there }
}

/// Why a write of a byte to what a port reaches is refused, if it is.
#[tactic(auto, unfolding(vga_card::specs::Cycles::out_reached))]
fn why_written(card: &Card, reached: Port, port: u16, v: u8) -> Option<CycleReason>
    requires { port_of card.now.misc port ≡ Some reached }
    ensures refusal { refusal_of_reason result
        ≡ refusal_in (out_at card.now (Some reached) v).1 }
    ensures reason { IfSome result (ExplainsOut card.now port v) }
{
    let Regs {
        host,
        crtc,
        attr,
        ..
    } = card.regs();
    match reached {
        Port::Attribute if !attr.is_data() => None,
        Port::Attribute => why_data(
            Group::AttributeController,
            attr.read_index() % ATTRIBUTE_REGISTERS,
            v,
        ),
        Port::SequencerData => why_data(Group::Sequencer, host.seq_index(), v),
        Port::GraphicsData => why_data(Group::GraphicsController, host.gfx_index(), v),
        Port::CrtcData => why_data(Group::CrtController, crtc.index(), v),
        Port::SubsystemEnable => Some(CycleReason::PortLeftOut {
            port,
            part: LeftOut::SubsystemEnable,
        }),
        Port::InputStatus1 => Some(CycleReason::PortLeftOut {
            port,
            part: LeftOut::FeatureControl,
        }),
        Port::AttributeRegister => Some(CycleReason::ReadOnly { port }),
        Port::FeatureControl => Some(CycleReason::ReadOnly { port }),
        Port::MiscellaneousRead => Some(CycleReason::ReadOnly { port }),
        Port::MiscellaneousWrite
        | Port::SequencerIndex
        | Port::DacMask
        | Port::DacReadIndex
        | Port::DacWriteIndex
        | Port::DacData
        | Port::GraphicsIndex
        | Port::CrtcIndex => None,
    }
}

/// Why a write of a byte to a port is refused, if it is.
#[tactic(auto, unfolding(vga_card::specs::Cycles::out_reached))]
pub(crate) fn why_out(card: &Card, port: u16, v: u8) -> Option<CycleReason>
    ensures refusal { refusal_of_reason result ≡ refusal_in (out_cycle card.now port v).1 }
    ensures reason { IfSome result (ExplainsOut card.now port v) }
{
    match port_reached(card.regs().misc, port) {
        Some(reached) => why_written(card, reached, port, v),
        None => Some(why_no_port(card, port)),
    }
}

/// Why a read of what a port reaches is refused, if it is.
#[tactic(auto, unfolding(vga_card::specs::Cycles::inp_reached))]
fn why_read(card: &Card, reached: Port, port: u16) -> Option<CycleReason>
    requires { port_of card.now.misc port ≡ Some reached }
    ensures refusal { refusal_of_reason result ≡ refusal_in (inp_at card.now (Some reached)).1 }
    ensures reason { IfSome result (ExplainsInp card.now port) }
{
    let Regs {
        host,
        crtc,
        attr,
        ..
    } = card.regs();
    match reached {
        Port::AttributeRegister => why_no_register(
            Group::AttributeController,
            attr.read_index() % ATTRIBUTE_REGISTERS,
        ),
        Port::SequencerData => why_no_register(Group::Sequencer, host.seq_index()),
        Port::GraphicsData => why_no_register(Group::GraphicsController, host.gfx_index()),
        Port::CrtcData => why_no_register(Group::CrtController, crtc.index()),
        Port::MiscellaneousWrite => Some(CycleReason::PortLeftOut {
            port,
            part: LeftOut::InputStatus0,
        }),
        Port::SubsystemEnable => Some(CycleReason::PortLeftOut {
            port,
            part: LeftOut::SubsystemEnable,
        }),
        Port::DacReadIndex => Some(CycleReason::PortLeftOut {
            port,
            part: LeftOut::DacState,
        }),
        Port::FeatureControl => Some(CycleReason::PortLeftOut {
            port,
            part: LeftOut::FeatureControl,
        }),
        Port::Attribute
        | Port::SequencerIndex
        | Port::DacMask
        | Port::DacWriteIndex
        | Port::DacData
        | Port::GraphicsIndex
        | Port::MiscellaneousRead
        | Port::InputStatus1
        | Port::CrtcIndex => None,
    }
}

/// Why a read of a port is refused, if it is.
#[tactic(auto, unfolding(vga_card::specs::Cycles::inp_reached))]
pub(crate) fn why_inp(card: &Card, port: u16) -> Option<CycleReason>
    ensures refusal { refusal_of_reason result ≡ refusal_in (inp_cycle card.now port).1 }
    ensures reason { IfSome result (ExplainsInp card.now port) }
{
    match port_reached(card.regs().misc, port) {
        Some(reached) => why_read(card, reached, port),
        None => Some(why_no_port(card, port)),
    }
}
