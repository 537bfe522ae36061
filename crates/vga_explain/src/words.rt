//! Why a cycle of a word is refused. A refused word moves neither byte. Whether its high byte is
//! refused is judged in the state that the low one would leave. If both are, the refusal with the
//! lower number is answered, and of equal ones that of the low byte.
ghost use Rattle.std.specs.Prelude.{◌≡◌, ◌+◌, ℕ, IfSome, None, Some, true, false, bit_and};
ghost use Rattle.std.specs.Option.{MatchOption};
ghost use Rattle.vga_bits.specs.declared.refusal.Refusal.TheVariants.{NotDecoded};
ghost use Rattle.vga_card.specs.Cycles.{out_cycle};
ghost use Rattle.vga_card.specs.Port.{port_of, crtc_port as crtc_port_number};
ghost use Rattle.vga_card.specs.WordCycles.{out_word_cycle, inp_word_cycle, put_word_cycle};
ghost use Rattle.vga_card.specs.WordCycles.{get_word_cycle};
ghost use Rattle.vga_explain.specs.CycleReasons.{refusal_of, refusal_of_reason, refusal_in};
ghost use Rattle.vga_explain.specs.Data.{data_refusal};
ghost use Rattle.vga_explain.specs.Ports.{ExplainsOut};
ghost use Rattle.vga_explain.specs.Words.{refusal_of_word_reason, ExplainsOutWord};
ghost use Rattle.vga_explain.specs.Words.{ExplainsInpWord, ExplainsAccessWord};

use crate::accesses::why_access;
use crate::cycle_reason::CycleReason;
use crate::data::{why_data, why_no_register};
use crate::group::Group;
use crate::left_out::LeftOut;
use crate::ports::{ATTRIBUTE_REGISTERS, why_inp, why_no_port, why_out};
use vga_card::{Card, Port, Regs, port_reached};

/// Why a word is refused, and for which of its bytes.
#[derive(Clone, Copy)]
pub(crate) struct WordReason {
    pub is_high: bool,
    pub reason: CycleReason,
}

/// The low byte's reason, if there is one.
fn of_low(reason: Option<CycleReason>) -> Option<WordReason>
    ensures refusal { refusal_of_word_reason result ≡ refusal_of_reason reason }
    ensures byte { IfSome result (λ word. (word.is_high ≡ false) × (reason ≡ Some word.reason)) }
{
    match reason {
        Some(reason) => Some(WordReason {
            is_high: false,
            reason,
        }),
        None => None,
    }
}

/// The high byte's reason, if there is one.
fn of_high(reason: Option<CycleReason>) -> Option<WordReason>
    ensures refusal { refusal_of_word_reason result ≡ refusal_of_reason reason }
    ensures byte { IfSome result (λ word. (word.is_high ≡ true) × (reason ≡ Some word.reason)) }
{
    match reason {
        Some(reason) => Some(WordReason {
            is_high: true,
            reason,
        }),
        None => None,
    }
}

/// The low byte's reason, if there is one, or else that the profile leaves out what the high one
/// would be.
fn of_low_or_left_out(low: Option<CycleReason>, port: u16, part: LeftOut) -> WordReason
    ensures { MatchOption low
        ((result.is_high ≡ true) × (result.reason ≡ CycleReason.PortLeftOut port part))
        (λ reason. (result.is_high ≡ false) × (result.reason ≡ reason)) }
{
    match low {
        Some(reason) => WordReason {
            is_high: false,
            reason,
        },
        None => WordReason {
            is_high: true,
            reason: CycleReason::PortLeftOut { port, part },
        },
    }
}

/// Why a word at a port that is not the adapter's is refused.
fn why_no_word(card: &Card, port: u16) -> WordReason
    requires { port_of card.now.misc port ≡ None }
    ensures refusal { refusal_of result.reason ≡ NotDecoded }
    ensures out { (v : ℕ) → ExplainsOutWord card.now port v result.is_high result.reason }
    ensures inp { ExplainsInpWord card.now port result.is_high result.reason }
{
    if port == u16::MAX {
        return WordReason {
            is_high: true,
            reason: CycleReason::LastPort,
        };
    }
    WordReason {
        is_high: false,
        reason: why_no_port(card, port),
    }
}

/// Why the high byte of a word at the graphics controller's index port is refused, if it is: it is
/// for the register that the low byte selects.
#[tactic(auto, unfolding(vga_card::specs::Cycles::out_reached, vga_card::specs::Port::port_of))]
fn why_graphics_data(card: &Card, port: u16, low: u8, high: u8) -> Option<CycleReason>
    requires index { port_of card.now.misc port ≡ Some Port.GraphicsIndex }
    requires number { port ≡ 0x3CE }
    ensures refusal { refusal_of_reason result
        ≡ data_refusal Group.GraphicsController (bit_and low 0x0F) high }
    ensures reason { IfSome result (ExplainsOut (out_cycle card.now port low).0 (port + 1) high) }
{
    let _ = card.regs();
    why_data(Group::GraphicsController, low & 0x0F, high)
}

/// The same at the CRT controller's index port.
#[tactic(auto, using(crate::proofs::PortLemmas::crtc_data), unfolding(vga_card::specs::Cycles::out_reached, vga_crtc::specs::Ports::after_out))]
fn why_crtc_data(card: &Card, port: u16, low: u8, high: u8) -> Option<CycleReason>
    requires index { port_of card.now.misc port ≡ Some Port.CrtcIndex }
    requires number { port ≡ crtc_port_number card.now.misc }
    ensures refusal { refusal_of_reason result
        ≡ data_refusal Group.CrtController (bit_and low 0x1F) high }
    ensures reason { IfSome result (ExplainsOut (out_cycle card.now port low).0 (port + 1) high) }
{
    let _ = card.regs();
    why_data(Group::CrtController, low & 0x1F, high)
}

/// Why a write of a word to a port and the next is refused, if it is.
#[tactic(auto, unfolding(vga_card::specs::Cycles::out_reached, vga_card::specs::Port::port_of, vga_card::specs::Port::crtc_port_of, vga_crtc::specs::Ports::after_out))]
pub(crate) fn why_out_word(card: &Card, port: u16, v: u16) -> Option<WordReason>
    ensures refusal { refusal_of_word_reason result
        ≡ refusal_in (out_word_cycle card.now port v).1 }
    ensures reason { IfSome result (λ word. ExplainsOutWord card.now port v word.is_high
        word.reason) }
{
    let (low, high) = ((v % 256) as u8, (v / 256) as u8);
    let Some(reached) = port_reached(card.regs().misc, port) else {
        return Some(why_no_word(card, port));
    };
    match reached {
        // The high byte is for the register that the low one selects.
        Port::SequencerIndex => of_high(why_data(Group::Sequencer, low % 8, high)),
        Port::GraphicsIndex => of_high(why_graphics_data(card, port, low, high)),
        Port::CrtcIndex => of_high(why_crtc_data(card, port, low, high)),
        // The high byte is at a port that can't be written, or at one that is left out.
        Port::Attribute => of_high(Some(CycleReason::ReadOnly { port: port + 1 })),
        Port::DacData => of_high(Some(CycleReason::ReadOnly { port: port + 1 })),
        Port::MiscellaneousWrite => of_high(Some(CycleReason::PortLeftOut {
            port: port + 1,
            part: LeftOut::SubsystemEnable,
        })),
        // The high byte is at no port, and whatever the low one is refused for has a higher number.
        Port::GraphicsData => of_high(Some(CycleReason::NoPort { port: port + 1 })),
        Port::CrtcData => of_high(Some(CycleReason::NoPort { port: port + 1 })),
        Port::InputStatus1 => of_high(Some(CycleReason::NoPort { port: port + 1 })),
        // The low byte is at a port that can't be written, or the high one is never refused.
        Port::AttributeRegister => of_low(why_out(card, port, low)),
        Port::SubsystemEnable => of_low(why_out(card, port, low)),
        Port::SequencerData => of_low(why_out(card, port, low)),
        Port::DacMask => None,
        Port::DacReadIndex => None,
        Port::DacWriteIndex => None,
        Port::FeatureControl => of_low(why_out(card, port, low)),
        Port::MiscellaneousRead => of_low(why_out(card, port, low)),
    }
}

/// Why a read of a word from a port and the next is refused, if it is.
#[tactic(auto, unfolding(vga_card::specs::Cycles::inp_reached, vga_card::specs::Port::port_of, vga_card::specs::Port::crtc_port_of))]
pub(crate) fn why_inp_word(card: &Card, port: u16) -> Option<WordReason>
    ensures refusal { refusal_of_word_reason result ≡ refusal_in (inp_word_cycle card.now port).1 }
    ensures reason { IfSome result (λ word. ExplainsInpWord card.now port word.is_high
        word.reason) }
{
    let Regs {
        misc,
        host,
        crtc,
        attr,
        ..
    } = card.regs();
    let Some(reached) = port_reached(misc, port) else {
        return Some(why_no_word(card, port));
    };
    match reached {
        // The low byte is an index, and the high one the register that it selects.
        Port::Attribute => of_high(why_no_register(
            Group::AttributeController,
            attr.read_index() % ATTRIBUTE_REGISTERS,
        )),
        Port::SequencerIndex => of_high(why_no_register(Group::Sequencer, host.seq_index())),
        Port::GraphicsIndex => of_high(why_no_register(
            Group::GraphicsController,
            host.gfx_index(),
        )),
        Port::CrtcIndex => of_high(why_no_register(Group::CrtController, crtc.index())),
        // The profile leaves out what the high byte would be.
        Port::AttributeRegister => Some(of_low_or_left_out(
            why_inp(card, port),
            port + 1,
            LeftOut::InputStatus0,
        )),
        Port::DacMask => of_high(Some(CycleReason::PortLeftOut {
            port: port + 1,
            part: LeftOut::DacState,
        })),
        Port::DacData => of_high(Some(CycleReason::PortLeftOut {
            port: port + 1,
            part: LeftOut::FeatureControl,
        })),
        // The high byte is at no port, and whatever the low one is refused for has a higher number.
        Port::FeatureControl => of_high(Some(CycleReason::NoPort { port: port + 1 })),
        Port::MiscellaneousRead => of_high(Some(CycleReason::NoPort { port: port + 1 })),
        Port::GraphicsData => of_high(Some(CycleReason::NoPort { port: port + 1 })),
        Port::CrtcData => of_high(Some(CycleReason::NoPort { port: port + 1 })),
        Port::InputStatus1 => of_high(Some(CycleReason::NoPort { port: port + 1 })),
        // The high byte is never refused, or for nothing with a lower number.
        Port::MiscellaneousWrite => of_low(why_inp(card, port)),
        Port::SubsystemEnable => of_low(why_inp(card, port)),
        Port::SequencerData => of_low(why_inp(card, port)),
        Port::DacReadIndex => of_low(why_inp(card, port)),
        Port::DacWriteIndex => None,
    }
}

/// Why memory does not answer at an address and the next, if it does not.
pub(crate) fn why_access_word(card: &Card, address: u32) -> Option<WordReason>
    ensures put { (v : ℕ) → refusal_of_word_reason result
        ≡ refusal_in (put_word_cycle card.now address v).1 }
    ensures get { refusal_of_word_reason result ≡ refusal_in (get_word_cycle card.now address).1 }
    ensures reason { IfSome result (λ word. ExplainsAccessWord card.now address word.is_high
        word.reason) }
{
    if address == u32::MAX {
        return of_high(Some(CycleReason::LastAddress));
    }
    match why_access(card, address) {
        Some(reason) => of_low(Some(reason)),
        None => of_high(why_access(card, address + 1)),
    }
}
