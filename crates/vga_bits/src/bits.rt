//! The bits of a byte, of which bit 7 is the highest.
ghost use Rattle.std.specs.Prelude.{◌≡◌, ◌<◌};
ghost use Rattle.vga_bits.specs.Bits.{is_set as is_set_of};

/// Whether bit `b`, 0 to 7, of a byte is 1.
pub fn is_set(v: u8, b: u32) -> bool
    requires { b < 8 }
    ensures { result ≡ is_set_of v b }
{
    (v >> b) & 1 == 1
}
