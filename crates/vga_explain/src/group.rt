//! The registers behind an index.
ghost use Rattle.std.specs.Prelude.{◌≡◌};
ghost use Rattle.vga_explain.specs.CycleReasons.{last_register as last_register_of};

/// The registers behind one index.
#[derive(Clone, Copy, PartialEq, Eq, Debug)]
pub enum Group {
    Sequencer,
    GraphicsController,
    CrtController,
    AttributeController,
}

impl Group {
    /// The number of its last register.
    pub(crate) fn last_register(self) -> u8
        ensures { result ≡ last_register_of self }
    {
        match self {
            Group::Sequencer => 4,
            Group::GraphicsController => 8,
            Group::CrtController => 0x18,
            Group::AttributeController => 20,
        }
    }
}
