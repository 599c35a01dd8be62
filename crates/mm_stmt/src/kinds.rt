//! What each statement counts as: an open theorem as an axiom, if open theorems count as axioms,
//! and any other statement as what it is.

ghost use Rattle.std.specs.Prelude.{◌≡◌, ◌<◌, ◌≤◌, ◌^◌, All, IfOk, bytes_eq, length, map};
ghost use Rattle.mm_spec.specs.Opened.{open_as_axioms, is_open_proof as spec_is_open_proof};
ghost use Rattle.mm_outline.specs.Parts.{AreWithin, IsOutline, statement_of, token_of, as_tokens};
ghost use Rattle.mm_outline.specs.Statements.{statements};
ghost use Rattle.mm_database.specs.Database.{kind_of};
ghost use Rattle.mm_database.specs.Kinds.{counted_as, is_axiom_kind, is_theorem_kind, numbers_of};

use mm_outline::parts::{Kind, Outline};
use mm_spec::Word;
use std::alloc::{AllocError, Allocator};

/// Whether the bytes of `word` are `name`.
fn is_word(text: &[u8], word: Word, name: &[u8]) -> bool
    requires start_le_end { word.start ≤ word.end }
    requires end_le_length { word.end ≤ length text.now }
    ensures { result ≡ bytes_eq (token_of text.now word).word name.now }
{
    word.bytes(text) == name
}

/// Whether these are the words of an open theorem's proof: `?`, or `(` `)` `?`.
fn is_open_proof(text: &[u8], words: &[Word]) -> bool
    requires { AreWithin text.now words.now }
    ensures { result ≡ spec_is_open_proof (as_tokens text.now words.now) }
{
    if words.len() == 1 {
        is_word(text, words[0], b"?".as_slice())
    } else if words.len() == 3 {
        is_word(text, words[0], b"(".as_slice())
            && is_word(text, words[1], b")".as_slice())
            && is_word(text, words[2], b"?".as_slice())
    } else {
        false
    }
}

/// Returns what the statement of an outline counts as.
fn counted_kind(text: &[u8], tokens: &[Word], outline: Outline, with_open: bool) -> Kind
    requires tokens_within { AreWithin text.now tokens.now }
    requires is_outline { IsOutline outline }
    requires end_lt_length { outline.end < length tokens.now }
    ensures { result ≡ kind_of (counted_as with_open (statement_of text.now tokens.now outline)) }
{
    if with_open
        && is_theorem(outline.kind)
        && is_open_proof(
            text,
            &tokens[outline.middle as usize + 1..outline.end as usize],
        )
    {
        Kind::Axiom
    } else {
        outline.kind
    }
}

/// Returns what each statement counts as.
pub(crate) fn kinds_of<A: Allocator + Copy>(
    alloc: A,
    text: &[u8],
    tokens: &[Word],
    outlines: &[Outline],
    with_open: bool,
) -> Result<Vec<Kind, A>, AllocError>
    requires tokens_within { AreWithin text.now tokens.now }
    requires are_outlines { All (λ o. IsOutline o × (o.end < length tokens.now)) outlines.now }
    ensures { IfOk result
        (λ kinds. kinds.items
        ≡ map kind_of (open_as_axioms with_open (statements text.now tokens.now outlines.now))) }
{
    let mut kinds = Vec::with_capacity(alloc, outlines.len())?;
    for outline in outlines {
        kinds.push(counted_kind(text, tokens, *outline, with_open))?;
    }
    Ok(kinds)
}

/// Whether a statement of this kind is a theorem.
fn is_theorem(kind: Kind) -> bool
    ensures { result ≡ is_theorem_kind kind }
{
    match kind {
        Kind::Theorem => true,
        _ => false,
    }
}

/// Returns the numbers of the theorems and those of the axioms, in file order.
pub(crate) fn assertions_of<A: Allocator + Copy>(
    alloc: A,
    kinds: &[Kind],
) -> Result<(Vec<u32, A>, Vec<u32, A>), AllocError>
    requires { length kinds.now < 2 ^ 31 }
    ensures theorems_are { IfOk result (λ v. v.0.items ≡ numbers_of is_theorem_kind kinds.now) }
    ensures axioms_are { IfOk result (λ v. v.1.items ≡ numbers_of is_axiom_kind kinds.now) }
{
    let mut theorems = Vec::new(alloc);
    let mut axioms = Vec::new(alloc);
    for statement in 0..kinds.len() as u32 {
        match kinds[statement as usize] {
            Kind::Theorem => theorems.push(statement)?,
            Kind::Axiom => axioms.push(statement)?,
            _ => {}
        }
    }
    Ok((theorems, axioms))
}
