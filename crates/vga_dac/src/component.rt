//! One of the three parts of a colour.
ghost use Rattle.std.specs.Prelude.{◌≡◌};

/// Which component of an entry the next byte at the data port is.
#[derive(Clone, Copy, PartialEq, Eq, Debug)]
pub enum Component {
    Red,
    Green,
    Blue,
}

impl Component {
    ghost use Rattle.vga_dac.specs.Dac.{next_component};

    /// The component after this one; after blue it is red again.
    pub(crate) fn next(self) -> Component
        ensures { result ≡ next_component self }
    {
        match self {
            Component::Red => Component::Green,
            Component::Green => Component::Blue,
            Component::Blue => Component::Red,
        }
    }
}
