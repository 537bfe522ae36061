//! An item, borrowed from the bytes of a script.
ghost use Rattle.std.specs.Prelude.{◌≡◌, ◌<◌, ◌^◌, length};
ghost use Rattle.vga_script.specs.Item.{steps_of_item};
ghost use Rattle.vga_script.specs.Spelled.{HasSpelledRepeatBody, spelled_item};

use super::step::Step;

/// An item, borrowed from the bytes of a script: it allocates nothing.
#[derive(Drop)]
pub(crate) enum SpelledItem<'a> {
    /// A step.
    Step {
        /// The step.
        step: Step<'a>,
    },
    /// A repeat of steps.
    Block {
        /// How many times its steps are taken.
        count: u16,
        /// How many steps there are.
        len: usize,
        /// Their bytes.
        steps: &'a [u8],
    },
}

impl<'a> SpelledItem<'a> {
    /// How many steps the item means.
    #[tactic(auto, using(crate::proofs::ItemLemmas::steps_of_repeat))]
    pub(crate) fn step_count_meant(&self) -> usize
        requires { HasSpelledRepeatBody self.now }
        ensures value { result ≡ length (steps_of_item (spelled_item self.now)) }
        ensures bound { result < 2 ^ 41 }
    {
        match self {
            SpelledItem::Step { .. } => 1,
            SpelledItem::Block { count, len, .. } => *count as usize * *len,
        }
    }
}
