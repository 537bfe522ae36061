//! A line of the list.

/// How the script of a case is written.
#[derive(Clone, Copy)]
pub enum Form {
    /// As text, in a file whose name ends in `.vga`.
    Vga,
    /// As hexadecimal bytes, in a file whose name ends in `.hex`.
    Hex,
}

/// A case: a script and the report that is expected of it.
#[derive(Clone, Copy)]
pub struct Case<'a> {
    /// The path of its files, without their endings.
    pub name: &'a str,
    /// How its script is written.
    pub form: Form,
    /// After how many steps the run stops, if it stops early.
    pub until: Option<u32>,
    /// Whether the expected report is wrong, so that the report must differ from it.
    pub is_wrong: bool,
}

/// What a line asks for.
#[derive(Clone, Copy)]
pub enum Item<'a> {
    /// Nothing: a comment or an empty line.
    Heading,
    /// The font file of the cases that follow.
    Fonts(&'a str),
    /// The file of a text that precedes each text that follows.
    Front(&'a str),
    /// No text precedes those that follow.
    NoFront,
    /// A case.
    Case(Case<'a>),
}

impl<'a> Case<'a> {
    /// The case of a line: `NAME`, with `wrong`, `bytes` or both before it, in this order, and
    /// perhaps `until STEPS` after it.
    fn of_line(line: &'a str) -> Option<Case<'a>> {
        let (is_wrong, line) = match line.strip_prefix("wrong ") {
            Some(others) => (true, others),
            None => (false, line),
        };
        let (form, line) = match line.strip_prefix("bytes ") {
            Some(others) => (Form::Hex, others),
            None => (Form::Vga, line),
        };
        let (name, until) = match line.split_once(" until ") {
            Some((name, steps)) => (name, Some(steps.parse().ok()?)),
            None => (line, None),
        };
        Some(Case {
            name,
            form,
            until,
            is_wrong,
        })
    }

    /// Whether it is a text that is run to its end, with a correct expected report.
    pub fn is_of_whole_text(&self) -> bool {
        matches!(self.form, Form::Vga) && self.until.is_none() && !self.is_wrong
    }
}

impl<'a> Item<'a> {
    /// What a line of a list asks for, if it is valid.
    pub fn of_line(line: &'a str) -> Option<Item<'a>> {
        if line.is_empty() || line.starts_with('#') {
            return Some(Item::Heading);
        }
        if line == "front none" {
            return Some(Item::NoFront);
        }
        if let Some(file) = line.strip_prefix("front ") {
            return Some(Item::Front(file));
        }
        if let Some(file) = line.strip_prefix("fonts ") {
            return Some(Item::Fonts(file));
        }
        Case::of_line(line).map(Item::Case)
    }
}
