//! Splitting a text into lines, and a line into words.
ghost use Rattle.std.specs.Prelude.{◌≡◌, ◌∷◌, ◌++◌, [], ◌<◌, ◌≤◌, length, IfNone, IfSome};
ghost use Rattle.std.specs.List.{before_first, position_or_len};
ghost use Rattle.std.specs.Option.{option_copied};
ghost use Rattle.vga_script.specs.Tokens.{is_blank, is_semicolon, is_end_of_piece, lines};
ghost use Rattle.vga_script.specs.Tokens.{lines_of_rest, IsEndOf};
ghost use Rattle.vga_script.specs.Tokens.{words_between_blanks};

/// A byte that ends a piece of a text.
#[derive(Clone, Copy, PartialEq, Eq, Debug)]
enum PieceEnd {
    /// A newline, which ends a line.
    Newline,
    /// A semicolon, which begins a comment.
    Semicolon,
    /// A blank, which ends a word.
    Blank,
}

impl PieceEnd {
    /// Whether this byte ends such a piece.
    fn is_ended_by(self, byte: u8) -> bool
        ensures { result ≡ is_end_of_piece self byte }
    {
        match self {
            PieceEnd::Newline => byte == b'\n',
            PieceEnd::Semicolon => byte == b';',
            PieceEnd::Blank => byte == b' ' || byte == b'\t' || byte == b'\r',
        }
    }

    /// The position of the first byte that ends such a piece of a text, or the text's length if
    /// none does.
    fn position_in(self, text: &[u8]) -> usize
        ensures position { result ≡ position_or_len (is_end_of_piece self) text.now }
        ensures within { result ≤ length text.now }
    {
        let mut position = 0;
        while position < text.len() && !self.is_ended_by(text[position]) {
            position += 1;
        }
        position
    }
}

/// The first line of a text, and what follows its newline if it has one.
#[tactic(auto, using(crate::proofs::WordLemmas::line_between, crate::proofs::WordLemmas::line_last))]
pub fn first_line(text: &[u8]) -> (&[u8], Option<&[u8]>)
    ensures line { lines text.now ≡ result.0.now ∷ lines_of_rest (option_copied result.1) }
    ensures shorter { IfSome result.1 (λ rest. length rest.now < length text.now) }
{
    let end = PieceEnd::Newline.position_in(text);
    if end == text.len() {
        return (text, None);
    }
    (text.split_at(end).0, Some(text.split_at(end + 1).1))
}

/// The part of a line before its comment.
pub fn before_comment(line: &[u8]) -> &[u8]
    ensures { result.now ≡ before_first is_semicolon line.now }
{
    line.split_at(PieceEnd::Semicolon.position_in(line)).0
}

/// Skips the blanks that a line begins with.
#[tactic(auto, using(crate::proofs::WordLemmas::skip_blank))]
fn after_blanks(line: &[u8]) -> &[u8]
    ensures words { words_between_blanks result.now ≡ words_between_blanks line.now }
    ensures prefix { 0 < length result.now → 0 < position_or_len is_blank result.now }
    ensures end { IsEndOf line.now result.now }
{
    let mut rest = line;
    while let [first, others @ ..] = rest {
        if !PieceEnd::Blank.is_ended_by(*first) {
            return rest;
        }
        rest = others;
    }
    rest
}

/// The first word of a line, of at least one byte, and what follows it, if the line has a word.
/// Together they are the end of the line.
pub fn next_word(line: &[u8]) -> Option<(&[u8], &[u8])>
    ensures found { IfSome result (λ x. words_between_blanks line.now ≡ x.0.now
        ∷ words_between_blanks x.1.now) }
    ensures none { IfNone result (words_between_blanks line.now ≡ []) }
    ensures end { IfSome result (λ x. IsEndOf line.now (x.0.now ++ x.1.now)) }
    ensures some { IfSome result (λ x. 0 < length x.0.now) }
{
    let rest = after_blanks(line);
    if rest.is_empty() {
        return None;
    }
    Some(rest.split_at(PieceEnd::Blank.position_in(rest)))
}
