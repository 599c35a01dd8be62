//! What a word is, by its bytes.

ghost use Rattle.std.specs.Prelude.{◌≡◌, ◌+◌, ◌<◌, ◌^◌, length, not, true, false, IfSome};
ghost use Rattle.std.specs.List.{position};
ghost use Rattle.mm_spec.specs.Bytes.{is_printable};
ghost use Rattle.mm_spec.specs.Roles.{fault_of, has_comment_mark, is_clean, is_comment_word};
ghost use Rattle.mm_spec.specs.Roles.{is_dollar_and};
ghost use Rattle.mm_spec.specs.Roles.{is_keyword, is_comment_mark, is_token, role_of};
ghost use Rattle.mm_spec.specs.Text.{has_dollar};
ghost use Rattle.mm_lex.specs.Plain.{IsPlainWord};

use crate::{Code, Fault};
use mm_bytes::is_printable;
use mm_spec::Role;

/// Whether all bytes are printable. A word may be as long as the text, so the loop always goes to
/// the end of the word: it is then compiled to examine many bytes at once.
#[tactic(auto, unfolding(mm_spec::specs::Roles::is_clean))]
fn is_clean(word: &[u8]) -> bool
    ensures { result ≡ is_clean word.now }
{
    let mut clean = true;
    for b in word {
        clean = is_printable(*b) && clean;
    }
    clean
}

#[inline(always)]
#[tactic(auto, unfolding(mm_spec::specs::Text::has_dollar))]
fn has_dollar(word: &[u8]) -> bool
    ensures { result ≡ has_dollar word.now }
{
    word.contains(&b'$')
}

#[tactic(auto, unfolding(mm_spec::specs::Roles::is_dollar_and))]
fn is_dollar_and(byte: u8, word: &[u8]) -> bool
    ensures { result ≡ is_dollar_and byte word.now }
{
    word.len() == 2 && word[0] == b'$' && word[1] == byte
}

#[tactic(auto, unfolding(mm_spec::specs::Roles::is_keyword))]
fn is_keyword(word: &[u8]) -> bool
    ensures { result ≡ is_keyword word.now }
{
    b"cvfedap=.{}[]".iter().any(|b| is_dollar_and(*b, word))
}

#[tactic(auto, unfolding(mm_spec::specs::Roles::is_comment_mark))]
fn is_comment_mark(first: u8, second: u8) -> bool
    ensures { result ≡ is_comment_mark first second }
{
    first == b'$' && (second == b'(' || second == b')')
}

/// Whether `$(` or `$)` occurs in the word.
fn has_comment_mark(word: &[u8]) -> bool
    ensures { result ≡ has_comment_mark word.now }
{
    if !has_dollar(word) {
        return false;
    }
    for i in 1..word.len() {
        if is_comment_mark(word[i - 1], word[i]) {
            return true;
        }
    }
    false
}

/// Whether a word is a token. Most words that are asked of are keywords.
fn is_token(word: &[u8]) -> bool
    ensures { result ≡ is_token word.now }
{
    is_keyword(word) || (is_clean(word) && !has_dollar(word))
}

#[tactic(auto, unfolding(mm_spec::specs::Roles::is_comment_word))]
fn is_comment_word(word: &[u8]) -> bool
    ensures { result ≡ is_comment_word word.now }
{
    is_clean(word) && !has_comment_mark(word)
}

/// What a word is. If `is_plain` is true, the word is known to be plain.
#[inline(always)]
pub fn role(in_comment: bool, is_plain: bool, word: &[u8]) -> Role
    requires { is_plain ≡ true → IsPlainWord word.now }
    ensures { result ≡ role_of in_comment word.now }
{
    match (is_plain, in_comment) {
        (true, true) => Role::Comment,
        (true, false) => Role::Token,
        (false, true) => role_inside(word),
        (false, false) => role_outside(word),
    }
}

#[tactic(auto, unfolding(mm_spec::specs::Roles::role_of))]
fn role_inside(word: &[u8]) -> Role
    ensures { result ≡ role_of true word.now }
{
    if is_dollar_and(b')', word) {
        Role::Closing
    } else if is_comment_word(word) {
        Role::Comment
    } else {
        Role::Faulty
    }
}

#[tactic(auto, unfolding(mm_spec::specs::Roles::role_of))]
fn role_outside(word: &[u8]) -> Role
    ensures { result ≡ role_of false word.now }
{
    if is_token(word) {
        Role::Token
    } else if is_dollar_and(b'(', word) {
        Role::Opening
    } else {
        Role::Faulty
    }
}

/// The place of the first byte in the word that isn't printable.
fn first_unprintable(word: &[u8]) -> Option<usize>
    ensures is_position { result ≡ position (λ b. not (is_printable b)) word.now }
    ensures is_within_word { IfSome result (λ i. i < length word.now) }
{
    word.iter().position(|b| !is_printable(*b))
}

/// The fault of a faulty word that begins at `at`.
#[tactic(auto, unfolding(mm_spec::specs::Roles::fault_of))]
pub fn word_fault(in_comment: bool, at: u32, word: &[u8]) -> Fault
    requires { at + length word.now < 2 ^ 32 }
    ensures { result ≡ fault_of in_comment at word.now }
{
    match first_unprintable(word) {
        Some(i) => Fault {
            at: at + i as u32,
            code: Code::BadByte,
        },
        None if in_comment => Fault {
            at,
            code: Code::MarkInComment,
        },
        None => Fault {
            at,
            code: Code::StrayDollar,
        },
    }
}
