//! The labels that a proof names.

ghost use Rattle.std.specs.Prelude.{◌≡◌, ◌≤◌, length, take};
ghost use Rattle.mm_spec.specs.Text.{words as words_of};
ghost use Rattle.mm_spec.specs.CompressedProof.{bracketed};
ghost use Rattle.mm_spec.specs.Assertion.{proof_labels};
ghost use Rattle.mm_outline.specs.Parts.{as_tokens, AreWithin};

use mm_spec::Word;

/// How many words there are before the first `)`.
fn label_count(text: &[u8], words: &[Word]) -> usize
    requires { AreWithin text.now words.now }
    ensures count_le_length { result ≤ length words.now }
    ensures are_labels { (bracketed (as_tokens text.now words.now)).labels
        ≡ as_tokens text.now (take result words.now) }
{
    for (i, word) in words.iter().enumerate() {
        if word.bytes(text) == b")".as_slice() {
            return i;
        }
    }
    words.len()
}

/// The words of a proof that are labels: all of them, or those in brackets if it is compressed.
pub(crate) fn label_words<'w>(text: &[u8], words: &'w [Word]) -> &'w [Word]
    requires { AreWithin text.now words.now }
    ensures are_labels { words_of (as_tokens text.now result.now)
        ≡ proof_labels (as_tokens text.now words.now) }
    ensures are_within { AreWithin text.now result.now }
{
    if words.is_empty() || words[0].bytes(text) != b"(".as_slice() {
        return words;
    }
    let after_bracket = &words[1..];
    &after_bracket[..label_count(text, after_bracket)]
}
