//! What the definitions of `mm_spec` mean, stated as laws. Nothing runs here: each function has an
//! empty body, and its contract is a law, in the terms of the subject. The terms that only laws use
//! are in `specs/`: the grammar of tokens and comments, what the letters of a proof spell, and the
//! statements of the laws. No other crate depends on this one, so nothing waits for the laws, and
//! the program is built without them.
//!
//! An empty body can't be made wrong. So the wrong bodies here turn a clause into a statement
//! that isn't true, and the prover refuses each, since the law's proof doesn't prove it: a premise
//! says less, two arguments are exchanged, or a definition on which the law depends says something
//! else. One, `open_theorems_left_out`, is true, but says less than the law. Each clause has one
//! edit, named after the mistake. The statements of the laws are in files of their own
//! (`specs/Laws`), so that a change of one is tried without the others being read again. Small
//! texts for which the definitions are worked out are in `proofs/` (`ExamplesLaw`, `VectorsLaw`,
//! `OutputsLaw`, `LinesExamplesLaw`).
//!
//! A law of what is read (`WhereRead`) holds of the statements as they count: with open theorems as
//! axioms, and without.
#![tactic(auto)]

mod cells;
mod citations;
mod comparisons;
mod derivations;
mod frames;
mod letters;
mod lines;
mod meaning;
mod outputs;
mod readings;
mod statements;
mod steps;
mod theorems;
mod words;

pub use cells::{cells_are_decided, theorems_have_one_wave};
pub use citations::essential_citations_are_citations;
pub use comparisons::{
    assertions_are_there_or_listed, exchanged_texts_exchange_sections,
    same_assertions_have_the_same_words, statements_are_there_in_themselves,
    theorems_rest_on_nothing_that_is_not_gained,
};
pub use derivations::labels_determine_a_derivation;
pub use frames::lawful_statements_have_complete_frames;
pub use letters::{letters_spell_one_list, numbers_have_one_spelling};
pub use lines::lines_tell_assertions;
pub use meaning::{valid_theorems_are_those_proved, well_formed_proofs_are_read};
pub use outputs::{long_texts_have_one_output, output_exists, output_is_unique};
pub use readings::{every_text_is_read, texts_are_sound_or_faulty};
pub use statements::{a_block_is_open_where_none_is_less_deep, statements_are_the_longest};
pub use steps::steps_are_what_is_named;
pub use theorems::theorems_are_valid_or_faulty;
pub use words::{
    a_reading_follows_the_grammar, tokens_are_those_of_the_grammar, words_are_the_longest_runs,
};
