//! What a word is, by its bytes: which keyword, or whether it may be a label.

ghost use Rattle.std.specs.Prelude.{◌≡◌, codes};
ghost use Rattle.mm_spec.specs.Text.{has_dollar, is_label as spec_is_label};
ghost use Rattle.mm_spec.specs.Text.{is_label_byte as spec_is_label_byte};
ghost use Rattle.mm_spec.specs.Laws.Table.{class};
ghost use Rattle.mm_outline.specs.Parts.{class_of};
ghost use Rattle.mm_outline.specs.Tokens.{FirstByteShowsDollar};

/// What a word is: a keyword, a word without a `$` (`Plain`), or any other word with one.
#[derive(Clone, Copy)]
pub enum Class {
    Constant,
    Variable,
    Disjoint,
    Floating,
    Essential,
    Axiom,
    Theorem,
    Equals,
    Dot,
    Open,
    Close,
    Plain,
    Other,
}

/// Whether the token contains a `$`, which its first byte shows.
#[inline(always)]
pub fn has_dollar(token: &[u8]) -> bool
    requires { FirstByteShowsDollar token.now }
    ensures { result ≡ has_dollar token.now }
{
    token[0] == b'$'
}

/// What a token is.
pub fn classify(word: &[u8]) -> Class
    requires { FirstByteShowsDollar word.now }
    ensures { class_of result ≡ class word.now }
{
    if !has_dollar(word) {
        Class::Plain
    } else if word == b"$c".as_slice() {
        Class::Constant
    } else if word == b"$v".as_slice() {
        Class::Variable
    } else if word == b"$d".as_slice() {
        Class::Disjoint
    } else if word == b"$f".as_slice() {
        Class::Floating
    } else if word == b"$e".as_slice() {
        Class::Essential
    } else if word == b"$a".as_slice() {
        Class::Axiom
    } else if word == b"$p".as_slice() {
        Class::Theorem
    } else if word == b"$=".as_slice() {
        Class::Equals
    } else if word == b"$.".as_slice() {
        Class::Dot
    } else if word == b"${".as_slice() {
        Class::Open
    } else if word == b"$}".as_slice() {
        Class::Close
    } else {
        Class::Other
    }
}

fn is_label_byte(byte: u8) -> bool
    ensures { result ≡ spec_is_label_byte byte }
{
    matches!(byte, b'A'..=b'Z' | b'a'..=b'z' | b'0'..=b'9' | b'-' | b'_' | b'.')
}

/// Whether the word consists only of bytes that a label may have.
pub fn is_label(word: &[u8]) -> bool
    ensures { result ≡ spec_is_label word.now }
{
    word.iter().all(|b| is_label_byte(*b))
}
