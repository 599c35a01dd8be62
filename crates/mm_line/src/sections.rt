//! The sections that the text of `--report` names.

ghost use Rattle.std.specs.Prelude.{◌≡◌, ◌==◌, IfOk, map};
ghost use Rattle.std.specs.List.{slice_split, filter};
ghost use Rattle.mm_spec.specs.Text.{is_in};
ghost use Rattle.mm_line.specs.Lines.{has_known_names, names_in, report_texts, section_names};
ghost use Rattle.mm_line.specs.Lines.{sections_named};

use mm_spec::Sections;
use std::alloc::{AllocError, Global};
use std::convert::AsStr;

/// Whether a section, or `all`, has this name.
fn is_known(name: &str) -> bool
    ensures { result ≡ is_in name.now section_names }
{
    name == "all"
        || name == "matrix"
        || name == "counts"
        || name == "usage"
        || name == "citations"
        || name == "proofs"
        || name == "statements"
}

/// Whether each name of the text is that of a section, or `all`.
fn has_known_names(text: &str) -> bool
    ensures { result ≡ has_known_names text.now }
{
    text.split(',').all(|name| is_known(name))
}

/// The parts of a word between `=` that have known names alone.
fn known_parts<'a>(alloc: Global, word: &'a str) -> Result<Vec<&'a str>, AllocError>
    ensures { IfOk result
        (λ v. map (λ t. t.now) v.items
        ≡ filter has_known_names (slice_split (λ b. b == 61) word.entry.now)) }
{
    word.split('=')
        .filter(|part| has_known_names(part))
        .collect(alloc)
}

/// The texts that `--report` takes of these words: the names of sections, and what else of the
/// words lists such names with commas between them.
pub(crate) fn report_texts<'a, S: AsStr>(
    alloc: Global,
    words: &'a [S],
) -> Result<Vec<&'a str>, AllocError>
    ensures { IfOk result
        (λ v. map (λ t. t.now) v.items ≡ report_texts (map S.text words.entry.now)) }
{
    let mut texts: Vec<&'a str> = vec![in alloc;
        "all",
        "matrix",
        "counts",
        "usage",
        "citations",
        "proofs",
        "statements",
    ]?;
    for word in words {
        let parts = known_parts(alloc, word.as_str())?;
        texts.extend_from_slice(&parts)?;
    }
    Ok(texts)
}

/// Whether the text has this name.
fn has_name(text: &str, name: &str) -> bool
    ensures { result ≡ is_in name.now (names_in text.now) }
{
    text.split(',').any(|part| name == part)
}

/// The sections that the text names. `all` stands for the sections of a report by default: matrix,
/// counts and usage.
pub(crate) fn sections_named_in(text: &str) -> Sections
    ensures { result ≡ sections_named (names_in text.now) }
{
    let is_all = has_name(text, "all");
    Sections {
        matrix: is_all || has_name(text, "matrix"),
        counts: is_all || has_name(text, "counts"),
        usage: is_all || has_name(text, "usage"),
        citations: has_name(text, "citations"),
        proofs: has_name(text, "proofs"),
        statements: has_name(text, "statements"),
    }
}
