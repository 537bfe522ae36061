//! Why data for a register behind an index are refused.
ghost use Rattle.std.specs.Prelude.{◌≡◌, ◌<◌, IfSome, Some, None, true, if◌then◌else◌};
ghost use Rattle.vga_bits.specs.Bits.{is_set as is_set_of};
ghost use Rattle.vga_bits.specs.declared.refusal.Refusal.TheVariants.{NotInProfile};
ghost use Rattle.vga_explain.specs.Data.{ExplainsData, IsNoRegister, data_refusal, read_refusal};
ghost use Rattle.vga_explain.specs.CycleReasons.{refusal_of_reason};

use crate::cycle_reason::CycleReason;
use crate::group::Group;
use vga_bits::is_set;

/// The numbers of the registers of which the profile leaves out a bit or a value.
const GRAPHICS_MODE: u8 = 5;

const UNDERLINE_LOCATION: u8 = 0x14;

const MODE_CONTROL: u8 = 0x17;

/// The bit of graphics mode that asks for the shift register mode.
const SHIFT_REGISTER_MODE: u8 = 5;

/// The bit of underline location that asks to count by four.
const COUNT_BY_FOUR: u8 = 5;

/// The value that the profile has for the low four bits of CRTC mode control.
const WANTED_MODE: u8 = 3;

/// Why a group has no register of this number, if it has none.
pub(crate) fn why_no_register(group: Group, index: u8) -> Option<CycleReason>
    ensures refusal { refusal_of_reason result ≡ read_refusal group index }
    ensures reason { IfSome result (IsNoRegister group index) }
{
    let last = group.last_register();
    if index > last {
        Some(CycleReason::NoRegister { group, index, last })
    } else {
        None
    }
}

/// Why a bit of the register that a byte is for must not be 1, if it is 1 and must not be.
fn why_bit(group: Group, index: u8, bit: u8, value: u8) -> Option<CycleReason>
    requires { bit < 8 }
    ensures refusal { refusal_of_reason result
        ≡ (if is_set_of value bit then Some NotInProfile else None) }
    ensures reason { IfSome result (λ reason. (reason ≡ CycleReason.BitLeftOut group index bit value)
        × (is_set_of value bit ≡ true)) }
{
    if is_set(value, bit as u32) {
        Some(CycleReason::BitLeftOut {
            group,
            index,
            bit,
            value,
        })
    } else {
        None
    }
}

/// Why a write of a byte to a group's register of this number is refused, if it is.
pub(crate) fn why_data(group: Group, index: u8, value: u8) -> Option<CycleReason>
    ensures refusal { refusal_of_reason result ≡ data_refusal group index value }
    ensures reason { IfSome result (ExplainsData group index value) }
{
    let last = group.last_register();
    if index > last {
        return Some(CycleReason::NoRegister { group, index, last });
    }
    match group {
        Group::GraphicsController if index == GRAPHICS_MODE => {
            why_bit(group, index, SHIFT_REGISTER_MODE, value)
        }
        Group::CrtController if index == UNDERLINE_LOCATION => {
            why_bit(group, index, COUNT_BY_FOUR, value)
        }
        Group::CrtController if index == MODE_CONTROL && value % 16 != WANTED_MODE => {
            Some(CycleReason::FieldLeftOut {
                group,
                index,
                high: 3,
                low: 0,
                wanted: WANTED_MODE,
            })
        }
        _ => None,
    }
}
