//! A statement, token by token.

ghost use Rattle.std.specs.Prelude.{◌≡◌, ◌<◌, ◌≤◌, ◌^◌, ℕ, length, false};
ghost use Rattle.mm_spec.specs.Text.{fault, has_dollar, is_label as spec_is_label};
ghost use Rattle.mm_spec.specs.Statement.{shape_code};
ghost use Rattle.mm_outline.specs.NextStatement.{IsNextStatement, is_start as spec_is_start};
ghost use Rattle.mm_spec.specs.Laws.Table.{class, transition};
ghost use Rattle.mm_outline.specs.Parts.{IsPartBefore, IsTransitionAt, IfAtStart, class_of};
ghost use Rattle.mm_outline.specs.Parts.{outline, progress, is_labelled_kind, token_at};
ghost use Rattle.mm_outline.specs.Parts.{transition_of};
ghost use Rattle.mm_outline.specs.declared.parts.Transition.TheVariants.{Complete};
ghost use Rattle.mm_outline.specs.Passed.{ArePassed};
ghost use Rattle.mm_outline.specs.Tokens.{AreTokens};

use crate::words::{Class, classify, has_dollar, is_label};
use mm_spec::{Code, Fault, Word};

/// Which of the nine shapes a statement has: `Open` is a `${`, and `Close` a `$}`.
#[derive(Clone, Copy, Debug, PartialEq, Eq)]
pub enum Kind {
    Constants,
    Variables,
    Disjoint,
    Floating,
    Essential,
    Axiom,
    Theorem,
    Open,
    Close,
}

impl Kind {
    /// Whether a statement of that kind has a label, and so a typecode.
    pub fn has_label(self) -> bool
        ensures { result ≡ is_labelled_kind self }
    {
        match self {
            Kind::Floating | Kind::Essential | Kind::Axiom | Kind::Theorem => true,
            _ => false,
        }
    }
}

/// Where a statement is among the tokens of a text, by the indices of tokens.
#[derive(Clone, Copy)]
pub struct Outline {
    pub kind: Kind,
    pub keyword: u32,
    /// The `$=`, or the last token if the statement has no `$=`.
    pub middle: u32,
    /// The last token.
    pub end: u32,
}

/// What has been read of a statement. Each number is the index of a token.
#[derive(Clone, Copy)]
pub enum Part {
    /// Nothing.
    Start,
    /// The label.
    Labelled(u32),
    /// The keyword of a statement other than a `$p`, and words after it.
    Words(Kind, u32),
    /// The keyword of a `$p`, and words after it.
    Formula(u32),
    /// The keyword of a `$p`, its `$=`, and words after that.
    Proof(u32, u32),
}

/// What a token does.
#[derive(Clone, Copy)]
pub enum Transition {
    /// It isn't expected.
    Stop,
    /// It is read, and the statement goes on.
    Continue(Part),
    /// It ends the statement.
    Complete(Outline),
}

/// What the token with the index `token_index` does to a statement of which `part` has been read,
/// where `depth` blocks are open. The class of the token is `class`. `is_label` says whether its
/// word may be a label, and means something at the beginning of a statement alone.
#[tactic(auto, using(crate::proofs::BetweenLaw::between_with_one_more))]
fn transition_for(
    _text: &[u8],
    _tokens: &[Word],
    depth: u32,
    part: Part,
    class: Class,
    is_label: bool,
    token_index: u32,
) -> Transition
    requires index_lt_count { token_index < length _tokens.now }
    requires is_part_before { IsPartBefore part token_index }
    requires label_is_told { IfAtStart part
        (is_label ≡ spec_is_label (token_at _text.now _tokens.now token_index).word) }
    ensures transition_is { transition_of _text.now _tokens.now depth token_index result
        ≡ transition (progress _text.now _tokens.now depth part token_index) (class_of class)
        (token_at _text.now _tokens.now token_index) }
    ensures is_transition_at { IsTransitionAt token_index result }
{
    match part {
        Part::Start => match class {
            Class::Constant => Transition::Continue(Part::Words(Kind::Constants, token_index)),
            Class::Variable => Transition::Continue(Part::Words(Kind::Variables, token_index)),
            Class::Disjoint => Transition::Continue(Part::Words(Kind::Disjoint, token_index)),
            Class::Open => one_token_statement(Kind::Open, token_index),
            Class::Close => {
                if depth > 0 {
                    one_token_statement(Kind::Close, token_index)
                } else {
                    Transition::Stop
                }
            }
            Class::Plain => {
                if is_label {
                    Transition::Continue(Part::Labelled(token_index))
                } else {
                    Transition::Stop
                }
            }
            _ => Transition::Stop,
        },
        Part::Labelled(_) => match class {
            Class::Floating => Transition::Continue(Part::Words(Kind::Floating, token_index)),
            Class::Essential => Transition::Continue(Part::Words(Kind::Essential, token_index)),
            Class::Axiom => Transition::Continue(Part::Words(Kind::Axiom, token_index)),
            Class::Theorem => Transition::Continue(Part::Formula(token_index)),
            _ => Transition::Stop,
        },
        Part::Words(kind, keyword) => match class {
            Class::Plain => Transition::Continue(part),
            Class::Dot => Transition::Complete(Outline {
                kind,
                keyword,
                middle: token_index,
                end: token_index,
            }),
            _ => Transition::Stop,
        },
        Part::Formula(keyword) => match class {
            Class::Plain => Transition::Continue(part),
            Class::Equals => Transition::Continue(Part::Proof(keyword, token_index)),
            _ => Transition::Stop,
        },
        Part::Proof(keyword, equals) => match class {
            Class::Plain => Transition::Continue(part),
            Class::Dot => Transition::Complete(Outline {
                kind: Kind::Theorem,
                keyword,
                middle: equals,
                end: token_index,
            }),
            _ => Transition::Stop,
        },
    }
}

/// The statement of the one token with the index `token_index`.
fn one_token_statement(kind: Kind, token_index: u32) -> Transition
    ensures { result ≡ Complete (outline kind token_index token_index token_index) }
{
    Transition::Complete(Outline {
        kind,
        keyword: token_index,
        middle: token_index,
        end: token_index,
    })
}

/// Whether the word is a label, where a label is expected.
fn is_label_at(part: Part, word: &[u8]) -> bool
    ensures { IfAtStart part (result ≡ spec_is_label word.now) }
{
    match part {
        Part::Start => is_label(word),
        _ => false,
    }
}

/// What the token with the index `token_index` does.
fn transition_at(
    text: &[u8],
    tokens: &[Word],
    depth: u32,
    part: Part,
    token_index: u32,
) -> Transition
    requires are_tokens { AreTokens text.now tokens.now }
    requires index_lt_count { token_index < length tokens.now }
    requires is_part_before { IsPartBefore part token_index }
    ensures transition_is { transition_of text.now tokens.now depth token_index result
        ≡ transition (progress text.now tokens.now depth part token_index)
        (class (token_at text.now tokens.now token_index).word)
        (token_at text.now tokens.now token_index) }
    ensures is_transition_at { IsTransitionAt token_index result }
{
    let token = tokens[token_index as usize];
    let word = token.bytes(text);
    let class = classify(word);
    let is_label = is_label_at(part, word);
    transition_for(text, tokens, depth, part, class, is_label, token_index)
}

/// What is found where a statement should begin: a complete statement, a token that is not
/// expected, or the end of the tokens, with what was read of a statement before it.
#[derive(Clone, Copy)]
pub enum NextStatement {
    Whole(Outline),
    Stopped(Fault),
    Ended(Part),
}

/// The code of a token that is not expected.
fn unexpected_code(is_between: bool, word: &[u8]) -> Code
    ensures { result ≡ shape_code is_between word.now }
{
    if word == b"$[".as_slice() || word == b"$]".as_slice() {
        Code::Inclusion
    } else if !is_between {
        Code::UnexpectedToken
    } else if word == b"$}".as_slice() {
        Code::UnopenedBlock
    } else if word.contains(&b'$') {
        Code::UnexpectedToken
    } else {
        Code::BadLabel
    }
}

/// Whether nothing of a statement has been read.
fn is_start(part: Part) -> bool
    ensures { result ≡ spec_is_start part }
{
    matches!(part, Part::Start)
}

/// The fault of the token with the index `token_index`, which is not expected.
fn unexpected(text: &[u8], tokens: &[Word], part: Part, token_index: u32) -> Fault
    requires are_tokens { AreTokens text.now tokens.now }
    requires index_lt_count { token_index < length tokens.now }
    ensures { result
        ≡ fault (token_at text.now tokens.now token_index).at
        (shape_code (spec_is_start part) (token_at text.now tokens.now token_index).word) }
{
    let token = tokens[token_index as usize];
    let word = token.bytes(text);
    Fault {
        at: token.start,
        code: unexpected_code(is_start(part), word),
    }
}

/// The first token from `from` on that has a `$`, or the end of the tokens if none has.
fn next_keyword(text: &[u8], tokens: &[Word], from: u32) -> u32
    requires are_tokens { AreTokens text.now tokens.now }
    requires tokens_lt_2_31 { length tokens.now < 2 ^ 31 }
    requires from_le_count { from ≤ length tokens.now }
    ensures from_le_result { from ≤ result }
    ensures result_le_count { result ≤ length tokens.now }
    ensures none_has_dollar { (i : ℕ) → from ≤ i → i < result
        → has_dollar (token_at text.now tokens.now i).word ≡ false }
{
    for token_index in from..tokens.len() as u32 {
        let token = tokens[token_index as usize];
        if has_dollar(token.bytes(text)) {
            return token_index;
        }
    }
    tokens.len() as u32
}

/// Where reading continues: words after a keyword are skipped, up to the next keyword.
fn pass_words(text: &[u8], tokens: &[Word], part: Part, token_index: u32) -> u32
    requires are_tokens { AreTokens text.now tokens.now }
    requires tokens_lt_2_31 { length tokens.now < 2 ^ 31 }
    requires index_le_count { token_index ≤ length tokens.now }
    requires is_part_before { IsPartBefore part token_index }
    ensures { ArePassed text.now tokens.now part token_index result }
{
    match part {
        Part::Start | Part::Labelled(_) => token_index,
        _ => next_keyword(text, tokens, token_index),
    }
}

/// Reads the next statement, from the token `from` on; `depth` blocks are open before it.
pub fn next_statement(text: &[u8], tokens: &[Word], depth: u32, from: u32) -> NextStatement
    requires are_tokens { AreTokens text.now tokens.now }
    requires tokens_lt_2_31 { length tokens.now < 2 ^ 31 }
    requires from_le_count { from ≤ length tokens.now }
    ensures { IsNextStatement text.now tokens.now depth from result }
{
    let mut part = Part::Start;
    let mut token_index = from;
    while token_index < tokens.len() as u32 {
        match transition_at(text, tokens, depth, part, token_index) {
            Transition::Stop => return NextStatement::Stopped(unexpected(
                text,
                tokens,
                part,
                token_index,
            )),
            Transition::Continue(next) => {
                part = next;
                token_index = pass_words(text, tokens, next, token_index + 1);
            }
            Transition::Complete(outline) => return NextStatement::Whole(outline),
        }
    }
    NextStatement::Ended(part)
}
