//! The statements of a text read, and what is kept of them by their outlines alone.

ghost use Rattle.std.specs.Prelude.{◌≡◌, ◌<◌, ◌^◌, All, IfOk, length};
ghost use Rattle.mm_spec.specs.Lexed.{tokens_of, lexical_fault};
ghost use Rattle.mm_outline.specs.Parts.{AreWithin, IsOutline};
ghost use Rattle.mm_stmt.specs.Listed.{CanList, CanRead, IsListed, IsReadOf, IsReadWith};

use crate::retained_words::retain_all_words;
use crate::statement_lists::list_statements;
use mm_database::statement_lists::StatementLists;
use mm_lists::Lists;
use mm_outline::parts::Outline;
use mm_scope::keys::{keys_in_stretches, keys_of};
use mm_scope::numbering::{numbers_in_stretches, numbers_of};
use mm_scope::outlines::outlines_of;
use mm_scope::reading::{Outlined, read_outlines};
use mm_scope::stretches::outlines_in_stretches;
use mm_spec::{Fault, Word};
use std::alloc::{AllocError, Allocator};
use std::thread::{self, Threads};

/// What is kept of statements by their outlines alone, be they lawful or not.
#[derive(Drop)]
pub(crate) struct Listed<A: Allocator> {
    pub(crate) statement_lists: StatementLists<A>,
    pub(crate) retained_words: Lists<Word, A>,
}

/// Lists the statements of these outlines.
fn list_outlined<A: Allocator + Copy>(
    alloc: A,
    text: &[u8],
    tokens: &[Word],
    outlines: &[Outline],
    with_open: bool,
) -> Result<Listed<A>, AllocError>
    requires tokens_within { AreWithin text.now tokens.now }
    requires are_outlines { All (λ o. IsOutline o × (o.end < length tokens.now)) outlines.now }
    requires few_outlines { length outlines.now < 2 ^ 31 }
    ensures { IfOk result (IsListed text.now tokens.now outlines.now with_open) }
{
    Ok(Listed {
        statement_lists: list_statements(alloc, text, tokens, outlines, with_open)?,
        retained_words: retain_all_words(alloc, tokens, outlines)?,
    })
}

/// Reads the statements of a text, with their lists, on the calling thread alone.
pub(crate) fn read_listed_alone<'a, A: Allocator + Copy>(
    alloc: A,
    text: &'a [u8],
    tokens: &[Word],
    fault: Option<Fault>,
    with_open: bool,
) -> Result<(Outlined<'a, A>, Listed<A>), AllocError>
    requires are_tokens { tokens.now ≡ tokens_of text.now }
    requires fault_is { fault ≡ lexical_fault text.now }
    ensures { IfOk result (λ r. IsReadWith text.now tokens.now with_open r.0 r.1) }
{
    let (outlines, rest) = outlines_of(alloc, text, tokens)?;
    let all = outlines.as_slice();
    let keys = keys_of(alloc, text, tokens, all)?;
    let numbers = numbers_of(alloc, keys, text, tokens, all)?;
    let outlined = read_outlines(alloc, keys, text, tokens, fault, all, rest, numbers)?;
    let listed = list_outlined(alloc, text, tokens, &outlined.outlines, with_open)?;
    Ok((outlined, listed))
}

/// The same, but as many threads as there are workers find where the statements are, and number
/// their symbols. Then another thread lists the statements while this one judges them. It lists
/// them all. Where one isn't lawful, those before it are listed again.
pub(crate) fn read_listed<'a, R: Threads + Sync, A: Allocator + Copy + Send + Sync>(
    rt: &R,
    alloc: A,
    text: &'a [u8],
    tokens: &[Word],
    fault: Option<Fault>,
    with_open: bool,
    workers: u32,
) -> Result<(Outlined<'a, A>, Listed<A>), AllocError>
    requires are_tokens { tokens.now ≡ tokens_of text.now }
    requires fault_is { fault ≡ lexical_fault text.now }
    requires some_workers { 0 < workers }
    ensures { IfOk result (λ r. IsReadWith text.now tokens.now with_open r.0 r.1) }
{
    let (outlines, rest) = outlines_in_stretches(rt, alloc, text, tokens, workers)?;
    let all = outlines.as_slice();
    let keys = keys_in_stretches(rt, alloc, text, tokens, all, workers)?;
    let numbers = numbers_in_stretches(rt, alloc, keys, text, tokens, all, workers)?;
    let (listed, outlined) = thread::join(
        rt,
        || -> Result<Listed<A>, AllocError>
            requires { CanList text.now tokens.now all.now }
            ensures { IfOk result
                (IsListed text.entry.now tokens.entry.now all.entry.now with_open) }
        { list_outlined(alloc, text, tokens, all, with_open) },
        || -> Result<Outlined<A>, AllocError>
            requires { CanRead text.now tokens.now fault all.now rest numbers.items }
            ensures { IfOk result
                (IsReadOf text.entry.now tokens.entry.now fault all.entry.now) }
        { read_outlines(alloc, keys, text, tokens, fault, all, rest, numbers) },
    );
    let outlined = outlined?;
    let listed = if outlined.outlines.len() == all.len() {
        listed?
    } else {
        list_outlined(alloc, text, tokens, &outlined.outlines, with_open)?
    };
    Ok((outlined, listed))
}
