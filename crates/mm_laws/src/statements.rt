//! The statements of a text, and their blocks.

ghost use Rattle.std.specs.Prelude.{◌≡◌, ◌↔◌, ℕ, List, ◌≤◌, IsTrue};
ghost use Rattle.mm_spec.specs.Text.{Token};
ghost use Rattle.mm_spec.specs.Statement.{Statement, AreLongestStatements};
ghost use Rattle.mm_spec.specs.Scope.{is_block_open};
ghost use Rattle.mm_spec.specs.Laws.Table.{statements_of};
ghost use Rattle.mm_spec.specs.Laws.Blocks.{InBlock};

/// The statements of a text are the longest list of complete statements, without a `$}` too many,
/// at the beginning of its tokens, and no other list is the longest.
pub fn statements_are_the_longest()
    ensures are_longest { (tokens : List Token)
        → AreLongestStatements tokens (statements_of tokens) }
    ensures no_other_list { (tokens : List Token) (list : List Statement)
        → AreLongestStatements tokens list
        → list ≡ statements_of tokens }
{}

/// The block of statement j is open at a later statement k exactly if no statement after j, up to
/// k, is less deep than j.
pub fn a_block_is_open_where_none_is_less_deep()
    ensures { (db : List Statement) (j k : ℕ) → j ≤ k
        → IsTrue (is_block_open db j k) ↔ InBlock db j k }
{}
