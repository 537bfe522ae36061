//! Versions of scripts.
ghost use Rattle.std.specs.Prelude.{◌≡◌, ◌≢◌, IfNone, IfSome};
ghost use Rattle.vga_script.specs.Version.{version_byte};
ghost use Rattle.vga_script.specs.declared.version.Version.{Version};

/// The version of a script.
#[derive(Clone, Copy, PartialEq, Eq, Debug)]
pub enum Version {
    /// Version 1: steps only.
    One,
    /// Version 2: steps, and repeats of them.
    Two,
}

impl Version {
    /// The version of this byte.
    pub(crate) fn of_byte(byte: u8) -> Option<Version>
        ensures found { IfSome result (λ version. byte ≡ version_byte version) }
        ensures none { IfNone result ((version : Version) → byte ≢ version_byte version) }
    {
        match byte {
            1 => Some(Version::One),
            2 => Some(Version::Two),
            _ => None,
        }
    }

    /// The byte of a version.
    pub(crate) fn byte(self) -> u8
        ensures { result ≡ version_byte self }
    {
        match self {
            Version::One => 1,
            Version::Two => 2,
        }
    }
}
