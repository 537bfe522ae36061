//! The names of steps in a text.
ghost use Rattle.std.specs.Prelude.{◌≡◌, ◌≢◌, IfNone, IfSome};
ghost use Rattle.std.specs.Str.{bytes_eq};
ghost use Rattle.vga_script.specs.Text.{keyword_name};
ghost use Rattle.vga_script.specs.Tokens.{in_lower_case};

/// The step that a line names, by its first word.
#[derive(Clone, Copy, PartialEq, Eq, Debug)]
pub enum Keyword {
    /// `out`.
    Out,
    /// `outw`.
    OutWord,
    /// `in`.
    In,
    /// `inw`.
    InWord,
    /// `put`.
    Put,
    /// `putw`.
    PutWord,
    /// `get`.
    Get,
    /// `getw`.
    GetWord,
    /// `int`.
    Int,
    /// `advance`.
    Advance,
    /// `frame`.
    Frame,
    /// `show`.
    Show,
}

/// Whether a word is this name, in either case. The name is in lower case.
#[tactic(auto, using(crate::proofs::NameLemmas::same_name))]
pub fn is_name(word: &[u8], name: &[u8]) -> bool
    requires { in_lower_case name.now ≡ name.now }
    ensures { result ≡ bytes_eq (in_lower_case word.now) name.now }
{
    word.eq_ignore_ascii_case(name)
}

impl Keyword {
    /// The keyword that a word is, if it is one.
    #[tactic(auto, using(crate::proofs::NameLemmas::named, crate::proofs::NameLemmas::unnamed))]
    pub fn of_word(word: &[u8]) -> Option<Keyword>
        ensures found { IfSome result (λ keyword. in_lower_case word.now ≡ keyword_name keyword) }
        ensures none { IfNone result ((keyword : Keyword) → in_lower_case word.now ≢ keyword_name
            keyword) }
    {
        if is_name(word, b"out") {
            return Some(Keyword::Out);
        }
        if is_name(word, b"outw") {
            return Some(Keyword::OutWord);
        }
        if is_name(word, b"in") {
            return Some(Keyword::In);
        }
        if is_name(word, b"inw") {
            return Some(Keyword::InWord);
        }
        if is_name(word, b"put") {
            return Some(Keyword::Put);
        }
        if is_name(word, b"putw") {
            return Some(Keyword::PutWord);
        }
        if is_name(word, b"get") {
            return Some(Keyword::Get);
        }
        if is_name(word, b"getw") {
            return Some(Keyword::GetWord);
        }
        if is_name(word, b"int") {
            return Some(Keyword::Int);
        }
        if is_name(word, b"advance") {
            return Some(Keyword::Advance);
        }
        if is_name(word, b"frame") {
            return Some(Keyword::Frame);
        }
        if is_name(word, b"show") {
            return Some(Keyword::Show);
        }
        None
    }
}
