//! The words and tokens of a text.

ghost use Rattle.std.specs.Prelude.{◌≡◌, ℕ, List, None};
ghost use Rattle.mm_spec.specs.Words.{words_of};
ghost use Rattle.mm_spec.specs.Laws.Words.{AreWords};
ghost use Rattle.mm_spec.specs.Readings.{reading};
ghost use Rattle.mm_spec.specs.Lexed.{lexical_fault, tokens_of};
ghost use Rattle.mm_spec.specs.declared.Word.{Word};
ghost use Rattle.mm_laws.specs.Grammar.{IsReading};
ghost use Rattle.mm_laws.specs.Lexing.{IsLexed};

/// The words of a text are its longest runs of bytes that aren't white space, in order, and no
/// other list is the list of these runs.
pub fn words_are_the_longest_runs()
    ensures are_words { (text : List ℕ) → AreWords text (words_of text) }
    ensures no_other_list { (text : List ℕ) (ws : List Word)
        → AreWords text ws → ws ≡ words_of text }
{}

/// A reading follows the grammar of tokens and comments, up to the first word with which the words
/// no longer follow it.
pub fn a_reading_follows_the_grammar()
    ensures { (text : List ℕ) (ws : List Word) → IsReading text ws (reading text None ws) }
{}

/// The tokens and the lexical fault of a text are those of its words, read by the grammar.
pub fn tokens_are_those_of_the_grammar()
    ensures { (text : List ℕ) → IsLexed text (tokens_of text) (lexical_fault text) }
{}
