//! The forms of lines: the word or the words that one begins with, and the numbers after them.
ghost use Rattle.std.specs.Prelude.{◌≡◌, ◌≢◌, IfNone};
ghost use Rattle.vga_script.specs.Text.{keyword_name};
ghost use Rattle.vga_script.specs.Tokens.{in_lower_case};
ghost use Rattle.vga_script.specs.declared.keyword.Keyword.{Keyword};

use super::number::Number;
use super::shown_name::ShownName;
use std::fmt;
use vga_script::{Keyword, is_name, numeric_steps};

/// What a line begins with, which says the words that follow.
#[derive(Clone, Copy, PartialEq, Eq, Debug)]
pub enum Form {
    /// A step of this name.
    Step(Keyword),
    /// A step that shows this.
    Show(ShownName),
    /// The beginning of a repeat.
    Repeat,
    /// The end of a repeat.
    End,
    /// The line of the version.
    Version,
}

/// The number of a field of the table of steps.
macro_rules! number_of_field {
    (port, two) => {
        Number::Port
    };
    (address, four) => {
        Number::Address
    };
    (value, one) => {
        Number::Byte
    };
    (value, two) => {
        Number::Word
    };
    (dots, dots) => {
        Number::Dots
    };
}

/// The numbers of a step, in order.
macro_rules! numbers_of_step {
    (
        $keyword:ident, $others:ident,
        $($name:ident => $step:ident { $($field:ident: $kind:ident),* },)*
    ) => {
        match $keyword {
            $(Keyword::$step => &[$(number_of_field!($field, $kind)),*],)*
            _ => $others,
        }
    };
}

/// The numbers of a step of this name, in order. A call has none of its own: its registers may be
/// left out.
fn numbers_of_step(keyword: Keyword) -> &'static [Number] {
    let others: &'static [Number] = &[];
    numeric_steps!(numbers_of_step, keyword, others)
}

/// The name of a step, in lower case.
fn step_name(keyword: Keyword) -> &'static str
    ensures { result.now ≡ keyword_name keyword }
{
    match keyword {
        Keyword::Out => "out",
        Keyword::OutWord => "outw",
        Keyword::In => "in",
        Keyword::InWord => "inw",
        Keyword::Put => "put",
        Keyword::PutWord => "putw",
        Keyword::Get => "get",
        Keyword::GetWord => "getw",
        Keyword::Int => "int",
        Keyword::Advance => "advance",
        Keyword::Frame => "frame",
        Keyword::Show => "show",
    }
}

impl Form {
    /// The form of a line that begins with this word. A step that shows something is not told by
    /// what it shows.
    pub(crate) fn of_word(word: &[u8]) -> Option<Form>
        ensures { IfNone result ((keyword : Keyword) → in_lower_case word.now ≢ keyword_name
            keyword) }
    {
        if let Some(keyword) = Keyword::of_word(word) {
            return Some(Form::Step(keyword));
        }
        if is_name(word, b"repeat") {
            return Some(Form::Repeat);
        }
        if is_name(word, b"end") {
            return Some(Form::End);
        }
        if is_name(word, b"version") {
            return Some(Form::Version);
        }
        None
    }

    /// The numbers that follow, in order.
    pub(crate) fn numbers(self) -> &'static [Number] {
        match self {
            Form::Step(keyword) => numbers_of_step(keyword),
            Form::Show(ShownName::Dac) => &[Number::Index],
            Form::Show(ShownName::Plane) => &[Number::Plane, Number::Offset, Number::Bytes],
            Form::Repeat => &[Number::Count],
            Form::Show(_) | Form::End | Form::Version => &[],
        }
    }

    /// Whether such a line is a step with numbers.
    pub(crate) fn is_numeric_step(self) -> bool {
        match self {
            Form::Step(keyword) => !numbers_of_step(keyword).is_empty(),
            _ => false,
        }
    }

    /// Writes the first word or the first two.
    fn write_name<W: fmt::Write>(self, f: &mut fmt::Formatter<W>) -> fmt::Result {
        match self {
            Form::Step(Keyword::Int) => f.write_str("int ax=N bx=N cx=N dx=N block BYTES"),
            Form::Step(keyword) => f.write_str(step_name(keyword)),
            Form::Show(name) => {
                f.write_str("show ")?;
                f.write_str(name.name())
            }
            Form::Repeat => f.write_str("repeat"),
            Form::End => f.write_str("end"),
            Form::Version => f.write_str("version 2"),
        }
    }
}

impl fmt::Display for Form {
    /// Writes what such a line looks like, as `out PORT VALUE`.
    fn fmt<W: fmt::Write>(&self, f: &mut fmt::Formatter<W>) -> fmt::Result {
        self.write_name(f)?;
        for number in self.numbers() {
            f.write_str(" ")?;
            f.write_str(number.name())?;
        }
        Ok(())
    }
}
