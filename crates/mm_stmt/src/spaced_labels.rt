//! The labels of the theorems, each after a space, side by side in one list.

ghost use Rattle.std.specs.Prelude.{◌≡◌, ◌<◌, ◌-◌, ◌∷◌, ◌++◌, All, IfOk, OnOk, IsTrue, length, map};
ghost use Rattle.mm_lists.specs.Lists.{with_end};
ghost use Rattle.mm_spec.specs.Assertion.{label_at};
ghost use Rattle.mm_spec.specs.Output.{is_theorem_at};
ghost use Rattle.mm_outline.specs.Parts.{AreWithin, IsOutline};
ghost use Rattle.mm_outline.specs.Statements.{statements};

use mm_lists::{Lists, end_list};
use mm_outline::parts::Outline;
use mm_spec::Word;
use std::alloc::{AllocError, Allocator};

/// Returns the label of a theorem.
fn label_of<'a>(text: &'a [u8], tokens: &[Word], outlines: &[Outline], theorem: u32) -> &'a [u8]
    requires tokens_within { AreWithin text.now tokens.now }
    requires are_outlines { All (λ o. IsOutline o × (o.end < length tokens.now)) outlines.now }
    requires is_theorem { IsTrue
        (is_theorem_at (statements text.now tokens.now outlines.now) theorem) }
    ensures { result.now ≡ label_at (statements text.now tokens.now outlines.now) theorem }
{
    let outline = outlines[theorem as usize];
    let word = tokens[outline.keyword as usize - 1];
    word.bytes(text)
}

/// Appends a space and the label of a theorem to `bytes`, and where they end to `ends`.
fn add_spaced_label<A: Allocator>(
    text: &[u8],
    tokens: &[Word],
    outlines: &[Outline],
    theorem: u32,
    bytes: &mut Vec<u8, A>,
    ends: &mut Vec<u32, A>,
) -> Result<(), AllocError>
    requires tokens_within { AreWithin text.now tokens.now }
    requires are_outlines { All (λ o. IsOutline o × (o.end < length tokens.now)) outlines.now }
    requires is_theorem { IsTrue
        (is_theorem_at (statements text.now tokens.now outlines.now) theorem) }
    ensures label_is_added { OnOk result
        (bytes.new.items
        ≡ bytes.old.items
        ++ 32 ∷ label_at (statements text.now tokens.now outlines.now) theorem) }
    ensures end_is_added { OnOk result
        (ends.new.items ≡ with_end ends.old.items (length bytes.new.items)) }
{
    bytes.push(b' ')?;
    bytes.extend_from_slice(label_of(text, tokens, outlines, theorem))?;
    end_list(bytes, ends)
}

/// Returns the labels of the theorems, each after a space, side by side in one list.
pub fn spaced_labels_of<A: Allocator + Copy>(
    alloc: A,
    text: &[u8],
    tokens: &[Word],
    outlines: &[Outline],
    theorems: &[u32],
) -> Result<Lists<u8, A>, AllocError>
    requires tokens_within { AreWithin text.now tokens.now }
    requires are_outlines { All (λ o. IsOutline o × (o.end < length tokens.now)) outlines.now }
    requires are_theorems { All
        (λ k. IsTrue (is_theorem_at (statements text.now tokens.now outlines.now) k))
        theorems.now }
    ensures { IfOk result
        (λ l. l
        ≡ map (λ k. 32 ∷ label_at (statements text.now tokens.now outlines.now) k)
        theorems.now) }
{
    let mut bytes = Vec::new(alloc);
    let mut ends = Vec::new(alloc);
    for theorem in theorems {
        add_spaced_label(text, tokens, outlines, *theorem, &mut bytes, &mut ends)?;
    }
    Ok(Lists::from_ends(bytes, ends))
}
