//! The colours of a picture, by numbers.
ghost use Rattle.std.specs.Prelude.{◌≡◌, ◌+◌, ◌<◌, ◌≤◌, ℕ, IfSome, None, slice_index, true};
ghost use Rattle.vga_c.specs.Palette.{HasColoursOnce, HasColourAdded, NoNumberHasColour, no_colours};

/// The most colours of a palette.
const MOST_COLOURS: usize = 256;

/// The colours of a picture as words 00RRGGBB, each once, and how many they are. The words behind
/// them are 0.
#[repr(C)]
#[derive(Clone, Copy)]
pub struct Palette {
    pub len: u32,
    pub colours: [u32; 256],
}

impl Palette {
    /// A palette without colours.
    #[tactic(auto, unfolding(vga_bits::specs::Bytes::zeros))]
    pub(crate) fn empty() -> Palette
        ensures { result ≡ no_colours }
    {
        Palette {
            len: 0,
            colours: [0; 256],
        }
    }

    /// Whether a number is that of a colour.
    pub(crate) fn is_number_of(&self, number: u8, colour: u32) -> bool
        requires { self.now.len ≤ 256 }
        ensures inside { result ≡ true → number < self.now.len }
        ensures shown { result ≡ true → slice_index self.now.colours number ≡ colour }
    {
        (number as u32) < self.len && self.colours[number as usize] == colour
    }

    /// The number of a colour, if it is in the palette.
    pub(crate) fn find(&self, colour: u32) -> Option<u8>
        requires { self.now.len ≤ 256 }
        ensures inside { IfSome result (λ n. n < self.now.len) }
        ensures shown { IfSome result (λ n. slice_index self.now.colours n ≡ colour) }
        ensures lacks { result ≡ None → NoNumberHasColour self.now colour }
    {
        for k in 0..self.len as usize {
            if self.colours[k] == colour {
                return Some(k as u8);
            }
        }
        None
    }

    /// Adds a colour that the palette lacks, and gives its number. A palette of 256 colours has no
    /// room for another.
    pub(crate) fn add(&mut self, colour: u32) -> Option<u8>
        requires few { self.old.len ≤ 256 }
        requires once { HasColoursOnce self.old }
        requires lacks { NoNumberHasColour self.old colour }
        ensures some { IfSome result (λ n. HasColourAdded self.old self.new n colour) }
        ensures full { result ≡ None → self.old.len ≡ 256 }
        ensures none { result ≡ None → self.new ≡ self.old }
    {
        let len = self.len as usize;
        if len == MOST_COLOURS {
            return None;
        }
        self.colours[len] = colour;
        self.len += 1;
        Some(len as u8)
    }
}
