//! The database of a text: its statements, and the calls that read them.

ghost use Rattle.std.specs.Prelude.{◌≡◌, ◌<◌, ◌≤◌, ◌^◌, ◌+◌, ◌&&◌, ◌∷◌, ℕ, Option, Some, None};
ghost use Rattle.std.specs.Prelude.{IfSome, IfNone, IsTrue, All, length, map, flat_map, slice_get};
ghost use Rattle.std.specs.Prelude.{slice_range, true, false};
ghost use Rattle.std.specs.Option.{option_map, option_copied, option_and_then};
ghost use Rattle.std.specs.List.{list_any};
ghost use Rattle.mm_spec.specs.Statement.{label_of, proof_of};
ghost use Rattle.mm_spec.specs.Opened.{open_as_axioms, is_open_theorem};
ghost use Rattle.mm_spec.specs.Scope.{active_at, statement_at};
ghost use Rattle.mm_spec.specs.Derivation.{pair};
ghost use Rattle.mm_spec.specs.Frame.{symbol_names, index_of, is_variable_number, formula_at};
ghost use Rattle.mm_spec.specs.Frame.{mandatory_hypotheses, mandatory_pairs, disjoint_at};
ghost use Rattle.mm_spec.specs.NormalProof.{is_labelled};
ghost use Rattle.mm_spec.specs.Citation.{is_assertion};
ghost use Rattle.mm_spec.specs.Laws.Complete.{AreComplete};
ghost use Rattle.mm_spec.specs.Lexed.{lexed_of};
ghost use Rattle.mm_spec.specs.Assertion.{label_at};
ghost use Rattle.mm_spec.specs.Output.{IsRead, theorems, columns};
ghost use Rattle.mm_outline.specs.Parts.{as_tokens, AreWithin};
ghost use Rattle.mm_database.specs.Database.{kind_of, end_at, typecode_of, contents_of, IsDatabase};
ghost use Rattle.mm_database.specs.Kinds.{is_axiom_kind, is_theorem_kind};

use crate::disjoint_index::are_in_one;
use crate::frames::Frame;
use crate::near::are_together_near;
use crate::reading::Reading;
use crate::tables::StatementTables;
use mm_outline::parts::Kind;
use mm_outline::symbol::Sym;
use mm_spec::{Fault, Word};
use std::alloc::Allocator;
use std::marker::Model;

/// The statements of a text up to the first malformed or unlawful one, by their numbers from
/// 0 in file order.
pub struct Database<'a, A: Allocator> {
    with_open: bool,
    reading: Reading<'a, A>,
    tables: StatementTables<A>,
}

/// Dropped in one call: docs/PROOFS.md, "What a check costs".
impl<'a, A: Allocator> Drop for Database<'a, A> {
    fn drop(self) {
        let Self {
            with_open: _,
            reading: _,
            tables: _,
        } = self;
    }
}

impl<'a, A: Allocator> Model for Database<'a, A> {
    ghost use Rattle.mm_database.specs.Database.{Contents, contents_of, IsDatabase};

    ghost Value = { Contents };

    ghost view = { λ d. contents_of d.with_open d.reading };

    ghost invariant = { λ d. IsDatabase d.with_open d.reading d.tables };
}

impl<'a, A: Allocator> Database<'a, A> {
    /// Returns the database of what was read of a text, with its tables. If `with_open` is set,
    /// open theorems count as axioms.
    pub fn new(
        with_open: bool,
        reading: Reading<'a, A>,
        tables: StatementTables<A>,
    ) -> Database<'a, A>
        requires { IsDatabase with_open reading tables }
        ensures { result ≡ contents_of with_open reading.entry }
    {
        Database {
            with_open,
            reading,
            tables,
        }
    }

    /// Returns the text.
    pub fn text(&self) -> &'a [u8]
        ensures { result.now ≡ self.now.text }
    {
        self.reading.statements.text()
    }

    /// Returns the fault after the statements: the first fault of words, shape, symbols, labels or
    /// scope.
    pub fn fault(&self) -> Option<Fault>
        ensures { result ≡ self.now.fault }
    {
        self.reading.fault
    }

    /// Returns the number of statements, at most that of the text's bytes.
    pub fn len(&self) -> u32
        ensures len { result ≡ length self.now.statements }
        ensures len_le_text { result ≤ length self.now.text }
        ensures len_lt_2_31 { result < 2 ^ 31 }
        ensures is_read { IsRead (length self.now.text)
            (lexed_of self.now.text) self.now.read self.now.fault }
        ensures are_counted { self.now.statements
            ≡ open_as_axioms self.now.with_open self.now.read }
        ensures are_complete { AreComplete self.now.statements }
    {
        self.reading.statements.len()
    }

    /// Returns which of the nine shapes a statement has. An open theorem has the kind of an axiom,
    /// if open theorems count as axioms.
    pub fn kind(&self, statement: u32) -> Kind
        requires { statement < length self.now.statements }
        ensures { option_map kind_of (slice_get self.now.statements statement) ≡ Some result }
    {
        self.tables.statement_lists.kinds[statement as usize]
    }

    /// Whether there is such a statement and it is an open theorem that counts as an axiom.
    pub fn is_open(&self, statement: u32) -> bool
        ensures { result
            ≡ (self.now.with_open
            && list_any is_open_theorem (statement_at self.now.read statement)) }
    {
        if statement >= self.len() {
            return false;
        }
        let kind_as_read = self.reading.statements.kind(statement);
        is_theorem_counted_as_axiom(kind_as_read, self.kind(statement))
    }

    /// Returns the place of a statement's last token, a byte offset from 0.
    pub fn end_at(&self, statement: u32) -> u32
        requires { statement < length self.now.statements }
        ensures { option_map end_at (slice_get self.now.statements statement) ≡ Some result }
    {
        let words = self.tables.retained_words.get(statement as usize);
        words[words.len() - 1].start
    }

    /// Returns the place of a statement's first token, a byte offset from 0, if that is its label,
    /// or `None` if it has none.
    pub fn label_place(&self, statement: u32) -> Option<u32>
        requires { statement < length self.now.statements }
        ensures { result
            ≡ option_map (λ t. t.at)
            (option_and_then label_of (slice_get self.now.statements statement)) }
    {
        if self.reading.statements.kind(statement).has_label() {
            Some(self.tables.retained_words.get(statement as usize)[0].start)
        } else {
            None
        }
    }

    /// Returns the label of a statement, or `None` if it has none.
    pub fn label(&self, statement: u32) -> Option<&'a [u8]>
        requires { statement < length self.now.statements }
        ensures { option_copied result
            ≡ option_map (λ t. t.word)
            (option_and_then label_of (slice_get self.now.statements statement)) }
    {
        if self.reading.statements.kind(statement).has_label() {
            let word = self.tables.retained_words.get(statement as usize)[0];
            Some(word.bytes(self.text()))
        } else {
            None
        }
    }

    /// Returns the statement that has the label, or `None` if there is none.
    #[inline(always)]
    pub fn find(&self, label: &[u8]) -> Option<u32>
        ensures has_label { IfSome result
            (λ k. (k < length self.now.statements)
            × IsTrue (list_any (is_labelled label.now) (statement_at self.now.statements k))) }
        ensures is_unique { IfSome result
            (λ k. (j : ℕ)
            → list_any (is_labelled label.now) (statement_at self.now.statements j) ≡ true
            → j ≡ k) }
        ensures none_has_label { IfNone result
            ((j : ℕ)
            → list_any (is_labelled label.now) (statement_at self.now.statements j) ≡ false) }
    {
        self.reading.names.labelled(label)
    }

    /// Returns the symbols of a statement, the typecode first if it has one. A `${` or `$}` has no
    /// symbols.
    pub fn formula(&self, statement: u32) -> &[Sym]
        requires { statement < length self.now.statements }
        ensures formula { result.now ≡ formula_at self.now.statements statement }
        ensures symbols_lt_count { All
            (λ s. s < length (symbol_names self.now.statements)) result.now }
        ensures length_lt_2_32 { length result.now < 2 ^ 32 }
    {
        self.reading.statements.formula(statement)
    }

    /// Returns the typecode of a `$f`, `$e`, `$a` or `$p`, and `None` for other statements.
    pub fn typecode(&self, statement: u32) -> Option<Sym>
        requires { statement < length self.now.statements }
        ensures typecode { result ≡ typecode_of self.now.statements statement }
        ensures symbol_lt_count { IfSome result
            (λ s. s < length (symbol_names self.now.statements)) }
    {
        if self.kind(statement).has_label() {
            self.formula(statement).first().copied()
        } else {
            None
        }
    }

    /// Returns the number of symbols. The number of each symbol is less than this.
    pub fn symbol_count(&self) -> u32
        ensures count_is { result ≡ length (symbol_names self.now.statements) }
        ensures count_lt_2_31 { result < 2 ^ 31 }
    {
        self.reading.statements.symbol_count()
    }

    /// Returns the name of a symbol.
    pub fn name(&self, symbol: Sym) -> &'a [u8]
        requires { symbol < length (symbol_names self.now.statements) }
        ensures { slice_get (symbol_names self.now.statements) symbol ≡ Some result.now }
    {
        self.reading.names.name(symbol.number() as usize)
    }

    /// Returns the number of the symbol with this name, or the count of symbols if none has it.
    pub fn symbol(&self, name: &[u8]) -> Sym
        ensures { result ≡ index_of name.now (symbol_names self.now.statements) }
    {
        let number = self.reading.names.number(name);
        Sym::new(number.min(self.symbol_count() as usize) as u32)
    }

    /// Whether a symbol is a variable.
    pub fn is_variable(&self, symbol: Sym) -> bool
        requires { symbol < length (symbol_names self.now.statements) }
        ensures { result ≡ is_variable_number self.now.statements symbol }
    {
        self.reading.statements.is_variable(symbol)
    }

    /// Whether a statement is active at the statement `at`, or at the end, which is `len()`. A `${`
    /// or `$}` is never active.
    pub fn active_at(&self, statement: u32, at: u32) -> bool
        requires statement_lt_length { statement < length self.now.statements }
        requires at_le_length { at ≤ length self.now.statements }
        ensures { result ≡ active_at self.now.statements statement at }
    {
        self.reading.statements.active_at(statement, at)
    }

    /// Returns the frame of an assertion.
    pub fn frame(&self, assertion: u32) -> &Frame<A>
        requires { list_any is_assertion (statement_at self.now.statements assertion) ≡ true }
        ensures hypotheses { result.now.hyps.items
            ≡ mandatory_hypotheses self.now.statements assertion }
        ensures pairs { map (λ p. pair p.0 p.1) result.now.pairs.items
            ≡ mandatory_pairs self.now.statements assertion }
        ensures few_statements { length self.now.statements < 2 ^ 31 }
    {
        self.tables.frame_tables.frames.of(assertion)
    }

    /// Whether two assertions share a frame: they have the same mandatory hypotheses and pairs of
    /// disjoint variables. Others may have the same ones too.
    pub fn share_frame(&self, one: u32, other: u32) -> bool
        requires one_is_assertion { list_any is_assertion (statement_at self.now.statements one)
            ≡ true }
        requires other_is_assertion { list_any is_assertion
            (statement_at self.now.statements other) ≡ true }
        ensures same_hypotheses { result ≡ true
            → mandatory_hypotheses self.now.statements one
            ≡ mandatory_hypotheses self.now.statements other }
        ensures same_pairs { result ≡ true
            → mandatory_pairs self.now.statements one
            ≡ mandatory_pairs self.now.statements other }
    {
        self.tables.frame_tables.frames.are_shared(one, other)
    }

    /// Whether a `$d` that is active at the statement, or at the end, has both variables. Always
    /// false for a variable and itself.
    pub fn disjoint_at(&self, statement: u32, x: Sym, y: Sym) -> bool
        requires { statement ≤ length self.now.statements }
        ensures { result ≡ disjoint_at self.now.statements statement x y }
    {
        x.number() != y.number()
            && (are_together_near(self, statement, x, y)
                || are_in_one(
                    self.reading.statements.blocks(),
                    &self.tables.frame_tables.disjoint_index,
                    x,
                    y,
                    statement,
                ))
    }

    /// Returns the words of a theorem's proof, those after its `$=`, and no words if the statement
    /// isn't a theorem.
    pub fn proof_words(&self, statement: u32) -> &[Word]
        requires { statement < length self.now.statements }
        ensures words_are { option_map proof_of (slice_get self.now.statements statement)
            ≡ Some (as_tokens self.now.text result.now) }
        ensures words_within { AreWithin self.now.text result.now }
    {
        match self.kind(statement) {
            Kind::Theorem => {
                let words = self.tables.retained_words.get(statement as usize);
                &words[1..words.len() - 1]
            }
            _ => &[],
        }
    }

    /// Returns the theorems, in file order: the `$p` statements, without open theorems if these
    /// count as axioms.
    pub fn theorems(&self) -> &[u32]
        ensures theorems { result.now ≡ theorems self.now.statements }
        ensures few_statements { length self.now.statements < 2 ^ 31 }
        ensures are_complete { AreComplete self.now.statements }
    {
        self.tables.statement_lists.theorems.as_slice()
    }

    /// Returns the axioms, in file order: the `$a` statements, and open theorems if these count as
    /// axioms.
    pub fn axioms(&self) -> &[u32]
        ensures axioms { result.now ≡ columns self.now.statements None }
        ensures few_statements { length self.now.statements < 2 ^ 31 }
    {
        self.tables.statement_lists.axioms.as_slice()
    }

    /// Returns the labels of the theorems with indices in `theorems` from `from` up to `to`, each
    /// after a space.
    pub fn spaced_labels(&self, from: u32, to: u32) -> &[u8]
        requires from_le_to { from ≤ to }
        requires to_le_length { to ≤ length (theorems self.now.statements) }
        ensures { result.now
            ≡ flat_map (λ k. 32 ∷ label_at self.now.statements k)
            (slice_range (theorems self.now.statements) from to) }
    {
        self.tables
            .statement_lists
            .spaced_labels
            .between(from as usize, to as usize)
    }
}

/// Whether a statement is a theorem that counts as an axiom, by the kind that it was read as and
/// the kind that it counts as.
fn is_theorem_counted_as_axiom(kind_as_read: Kind, counted_kind: Kind) -> bool
    ensures { result ≡ (is_theorem_kind kind_as_read && is_axiom_kind counted_kind) }
{
    match kind_as_read {
        Kind::Theorem => match counted_kind {
            Kind::Axiom => true,
            _ => false,
        },
        _ => false,
    }
}
