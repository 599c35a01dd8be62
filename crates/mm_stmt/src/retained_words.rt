//! The words of statements that are needed again.

ghost use Rattle.std.specs.Prelude.{◌≡◌, ◌<◌, ◌+◌, ◌++◌, All, IfOk, OnOk, length, map};
ghost use Rattle.mm_outline.specs.Parts.{IsOutline};
ghost use Rattle.mm_database.specs.RetainedWords.{retained_words};

use mm_lists::{Lists, end_list};
use mm_outline::parts::Outline;
use mm_spec::Word;
use std::alloc::{AllocError, Allocator};

/// Appends the words of a statement that are needed again.
fn retain_words<A: Allocator>(
    tokens: &[Word],
    outline: Outline,
    words: &mut Vec<Word, A>,
) -> Result<(), AllocError>
    requires is_outline { IsOutline outline }
    requires end_lt_length { outline.end < length tokens.now }
    ensures { OnOk result (words.new.items ≡ words.old.items ++ retained_words tokens.now outline) }
{
    if outline.kind.has_label() {
        words.push(tokens[outline.keyword as usize - 1])?;
    }
    if outline.middle < outline.end {
        let proof = &tokens[outline.middle as usize + 1..outline.end as usize];
        words.extend_from_slice(proof)?;
    }
    words.push(tokens[outline.end as usize])?;
    Ok(())
}

/// Returns for each statement the words that are needed again.
pub(crate) fn retain_all_words<A: Allocator + Copy>(
    alloc: A,
    tokens: &[Word],
    outlines: &[Outline],
) -> Result<Lists<Word, A>, AllocError>
    requires { All (λ o. IsOutline o × (o.end < length tokens.now)) outlines.now }
    ensures { IfOk result (λ k. k ≡ map (retained_words tokens.now) outlines.now) }
{
    let mut words = Vec::new(alloc);
    let mut ends = Vec::new(alloc);
    for outline in outlines {
        retain_words(tokens, *outline, &mut words)?;
        end_list(&words, &mut ends)?;
    }
    Ok(Lists::from_ends(words, ends))
}
