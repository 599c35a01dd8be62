//! Where the statements of a text are, by their shapes alone.

ghost use Rattle.std.specs.Prelude.{◌≡◌, ◌<◌, ◌^◌, IfOk, length};
ghost use Rattle.mm_outline.specs.Parts.{depth_after};
ghost use Rattle.mm_outline.specs.Tokens.{AreTokens};
ghost use Rattle.mm_scope.specs.Outlines.{AreOutlinesBefore, AreOutlinesFrom};

use mm_outline::parts::{Kind, NextStatement, Outline, Part, next_statement};
use mm_spec::{Fault, Word};
use std::alloc::{AllocError, Allocator};

/// What is found behind the last statement.
#[derive(Clone, Copy)]
pub enum Rest {
    /// A token that isn't expected.
    Stopped(Fault),
    /// The end of the tokens, with what was read of a statement before it.
    Ended(Part),
}

/// Returns the number of blocks that are open after a statement.
pub(crate) fn depth_after(kind: Kind, depth: u32) -> u32
    requires { depth < 2 ^ 31 }
    ensures { result ≡ depth_after kind depth }
{
    match kind {
        Kind::Open => depth + 1,
        Kind::Close => { if depth == 0 { 0 } else { depth - 1 } }
        _ => depth,
    }
}

/// The outlines of the statements before a token, lawful or not.
#[derive(Drop)]
pub(crate) struct OutlinesBefore<A: Allocator> {
    pub(crate) outlines: Vec<Outline, A>,
    /// How many blocks are open there.
    pub(crate) depth: u32,
    pub(crate) token_index: u32,
}

/// Returns the outlines of the statements of a text, lawful or not, up to the first that isn't
/// well-formed, and what is found there.
pub fn outlines_of<A: Allocator + Copy>(
    alloc: A,
    text: &[u8],
    tokens: &[Word],
) -> Result<(Vec<Outline, A>, Rest), AllocError>
    requires are_tokens { AreTokens text.now tokens.now }
    requires few_tokens { length tokens.now < 2 ^ 31 }
    ensures { IfOk result (λ r. AreOutlinesFrom text.now tokens.now 0 0 r.0.items r.1) }
{
    let none = OutlinesBefore {
        outlines: Vec::new(alloc),
        depth: 0,
        token_index: 0,
    };
    outlines_onward(text, tokens, none)
}

/// The same, but the statements before a token have been found already.
pub(crate) fn outlines_onward<A: Allocator>(
    text: &[u8],
    tokens: &[Word],
    before: OutlinesBefore<A>,
) -> Result<(Vec<Outline, A>, Rest), AllocError>
    requires are_tokens { AreTokens text.now tokens.now }
    requires few_tokens { length tokens.now < 2 ^ 31 }
    requires are_before { AreOutlinesBefore text.now tokens.now before }
    ensures { IfOk result (λ r. AreOutlinesFrom text.now tokens.now 0 0 r.0.items r.1) }
{
    let OutlinesBefore {
        mut outlines,
        mut depth,
        mut token_index,
    } = before;
    'statements: loop {
        match next_statement(text, tokens, depth, token_index) {
            NextStatement::Whole(outline) => {
                outlines.push(outline)?;
                depth = depth_after(outline.kind, depth);
                token_index = outline.end + 1;
            }
            NextStatement::Stopped(fault) => return Ok((outlines, Rest::Stopped(fault))),
            NextStatement::Ended(part) => return Ok((outlines, Rest::Ended(part))),
        }
    }
}

/// How many of the statements have a label.
pub(crate) fn label_count(outlines: &[Outline]) -> usize {
    outlines
        .iter()
        .filter(|outline| outline.kind.has_label())
        .count()
}
