//! The version of the library's interface, to compare at run time.
ghost use Rattle.std.specs.Prelude.{◌≡◌, ◌+◌, ◌*◌};
ghost use Rattle.vga_c.specs.Version.{api_major, api_minor};

/// Grows when a call, a struct or a status changes.
const API_MAJOR: u32 = 1;

/// Grows when calls, structs or statuses are added.
const API_MINOR: u32 = 6;

/// The interface's version: 65,536 times the major number, plus the minor number.
#[unsafe(no_mangle)]
pub extern "C" fn zak_version() -> u32
    ensures { result ≡ 0x1_0000 * api_major + api_minor }
{
    0x1_0000 * API_MAJOR + API_MINOR
}
