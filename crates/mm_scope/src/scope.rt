//! The names and the blocks before a statement, what they say of a word, and those after it.

ghost use Rattle.std.specs.Prelude.{◌≡◌, ◌<◌, ◌+◌, ◌-◌, ◌^◌, ◌∷◌, ◌++◌, [], ℕ, List, Some};
ghost use Rattle.std.specs.Prelude.{length, not, true, OnOk, bytes_eq, if◌then◌else◌, slice_get};
ghost use Rattle.mm_spec.specs.Text.{is_in, token};
ghost use Rattle.mm_spec.specs.Statement.{Statement, label_of, symbols_of};
ghost use Rattle.mm_spec.specs.Lawful.{faults_at, is_typed, is_typed_otherwise, least, when};
ghost use Rattle.mm_spec.specs.Lawful.{symbol_codes};
ghost use Rattle.mm_spec.specs.Lawful.{label_faults, floating_faults};
ghost use Rattle.mm_spec.specs.declared.Code.TheVariants.{BadTypecode, TypedBefore, OtherTypecode};
ghost use Rattle.mm_outline.specs.Blocks.{is_open_in};
ghost use Rattle.mm_outline.specs.Parts.{AreWithin, between, token_at, statement_of};
ghost use Rattle.mm_database.specs.Names.{is_constant_in, with_name};
ghost use Rattle.mm_scope.specs.Knows.{is_active_symbol, fault_at, listed_codes, typing_fault};
ghost use Rattle.mm_scope.specs.WordEntry.{after_declaring, after_typing, declared_entry, entry_of};
ghost use Rattle.mm_scope.specs.WordEntry.{entry_after, label_after};
ghost use Rattle.mm_scope.specs.Formulas.{IsNumberOnward};
ghost use Rattle.mm_scope.specs.Scopes.{AreKnown, AreNumbersAfter, Declares, IsLeastCode};
ghost use Rattle.mm_scope.specs.Scopes.{IsLeastFault};
ghost use Rattle.mm_scope.specs.Scopes.{IsOutlineAmong};
ghost use Rattle.mm_scope.specs.Scopes.{IsScopeAfter, IsNextScope, declared_words, listed_words};
ghost use Rattle.mm_scope.specs.Scopes.{symbol_in, word_entry_in, label_in, names_in};

use mm_database::names::{NameTable, SymbolEntry};
use mm_outline::blocks::{Blocks, NEVER};
use mm_outline::parts::{Kind, Outline};
use mm_outline::symbol::Sym;
use mm_spec::{Code, Word};
use std::alloc::{AllocError, Allocator};

/// The names and the blocks after the statements so far.
#[derive(Drop)]
pub struct Scope<'a, A: Allocator> {
    pub names: NameTable<'a, A>,
    /// What is known of each symbol, by its number.
    pub known: Vec<SymbolEntry<'a>, A>,
    pub blocks: Blocks<A>,
}

impl<'a, A: Allocator + Copy> Scope<'a, A> {
    /// Whether the symbol is an active variable.
    fn is_active(&self, symbol: SymbolEntry<'a>) -> bool
        ensures { result ≡ is_active_symbol (is_open_in self.now.blocks) symbol.entry }
    {
        symbol.is_variable && self.blocks.is_still_open(symbol.declaration)
    }

    /// Whether the symbol has an active `$f`.
    fn is_typed(&self, symbol: SymbolEntry<'a>) -> bool
        ensures { result ≡ is_open_in self.now.blocks symbol.entry.typing }
    {
        self.blocks.is_still_open(symbol.typing)
    }

    /// Returns what is known of the symbol with this number, or `None` if no symbol has it yet.
    #[inline(always)]
    pub(crate) fn symbol_at(&self, number: Sym) -> Option<SymbolEntry<'a>>
        ensures { result ≡ slice_get self.now.known.items number }
    {
        self.known.get(number.number() as usize).copied()
    }

    /// Sets what is known of a symbol. `number` is its number, or that which it will have among the
    /// names of the whole text. A new symbol gets the next number.
    fn set_symbol(
        &mut self,
        word: &'a [u8],
        number: usize,
        symbol: SymbolEntry<'a>,
    ) -> Result<(), AllocError>
        requires are_known { AreKnown self.old }
        requires is_number { IsNumberOnward (names_in self.old) word.now number }
        ensures are_known { OnOk result (AreKnown self.new) }
        ensures symbol_is_set { OnOk result
            ((w : List ℕ)
            → symbol_in self.new w
            ≡ (if bytes_eq word.now w then Some symbol.entry else symbol_in self.old w)) }
        ensures labels_stay { OnOk result
            ((w : List ℕ) → label_in self.new w ≡ label_in self.old w) }
        ensures name_is_added { OnOk result
            (names_in self.new ≡ with_name word.now (names_in self.old)) }
        ensures blocks_stay { self.new.blocks ≡ self.old.blocks }
    {
        self.names.set_symbol(word, symbol)?;
        if number < self.known.len() {
            self.known[number] = symbol;
        } else {
            self.known.push(symbol)?;
        }
        Ok(())
    }

    /// Returns what is wrong with a word as a symbol of a formula after the typecode. `word_symbol`
    /// is what is known of the word.
    pub(crate) fn symbol_code(&self, word_symbol: Option<SymbolEntry<'a>>) -> Option<Code>
        ensures { (word : List ℕ)
            → symbol_in self.now word ≡ word_symbol.entry
            → IsLeastCode self.now (λ n. symbol_codes n [] word) result }
    {
        match word_symbol {
            Some(symbol) => {
                if !symbol.is_variable {
                    None
                } else if !self.is_active(symbol) {
                    Some(Code::UndeclaredSymbol)
                } else if self.is_typed(symbol) {
                    None
                } else {
                    Some(Code::UntypedVariable)
                }
            }
            None => Some(Code::UndeclaredSymbol),
        }
    }

    /// Returns what is wrong with a word as a label.
    pub(crate) fn label_code(&self, word: &[u8]) -> Option<Code>
        ensures { (place : ℕ)
            → IsLeastFault self.now (λ n. label_faults n (token place word.now))
            (fault_at place result) }
    {
        if self.names.symbol(word).is_some() {
            Some(Code::LabelIsSymbol)
        } else if self.names.is_label(word) {
            Some(Code::LabelUsedBefore)
        } else {
            None
        }
    }

    /// Returns what is wrong with a word as a typecode. `word_symbol` is what is
    /// known of the word.
    pub(crate) fn typecode_fault_code(word_symbol: Option<SymbolEntry<'a>>) -> Option<Code>
        ensures { (place : ℕ)
            → fault_at place result
            ≡ least (faults_at place (when (not (is_constant_in word_symbol.entry)) BadTypecode)) }
    {
        match word_symbol {
            Some(symbol) if !symbol.is_variable => None,
            _ => Some(Code::BadTypecode),
        }
    }

    /// Returns what is wrong with the typecode for the variable of a `$f`.
    pub(crate) fn floating_code(&self, typecode: &[u8], symbol: SymbolEntry<'a>) -> Option<Code>
        ensures { (word : List ℕ)
            → symbol_in self.now word ≡ Some symbol.entry
            → is_active_symbol (is_open_in self.now.blocks) symbol.entry ≡ true
            → IsLeastCode self.now
            (λ n. when (is_typed n word) TypedBefore
            ++ when (is_typed_otherwise n typecode.now word) OtherTypecode) result }
    {
        if self.is_typed(symbol) {
            Some(Code::TypedBefore)
        } else if symbol.typing != NEVER && typecode != symbol.typecode {
            Some(Code::OtherTypecode)
        } else {
            None
        }
    }

    /// Returns what is wrong with a word as one of the symbols that a `$c`, `$v` or `$d` lists.
    /// `word_symbol` is what is known of the word, and `repeated` says whether it occurs earlier in
    /// the statement.
    pub(crate) fn listed_code(
        &self,
        kind: Kind,
        word: &[u8],
        word_symbol: Option<SymbolEntry<'a>>,
        repeated: bool,
    ) -> Option<Code>
        ensures { (earlier : List (List ℕ))
            → symbol_in self.now word.now ≡ word_symbol.entry
            → repeated ≡ is_in word.now earlier
            → IsLeastCode self.now (λ n. listed_codes n kind earlier word.now) result }
    {
        // A `$c` may declare no symbol again. A `$v` may declare again a variable that isn't
        // active.
        let (is_declared, is_active) = match word_symbol {
            Some(symbol) => {
                let is_active = self.is_active(symbol);
                (
                    kind == Kind::Constants || !symbol.is_variable || is_active,
                    is_active,
                )
            }
            None => (false, false),
        };
        if kind != Kind::Constants && kind != Kind::Variables {
            if !is_active {
                Some(Code::UndeclaredVariable)
            } else if repeated {
                Some(Code::RepeatedVariable)
            } else {
                None
            }
        } else if is_declared || repeated {
            Some(Code::DeclaredBefore)
        } else if self.names.is_label(word) {
            Some(Code::LabelIsSymbol)
        } else {
            None
        }
    }

    /// Returns what is wrong with a constant as the type of an active variable: `Some(None)` if
    /// nothing is, and `None` if the two words aren't a constant and an active variable.
    pub(crate) fn typing_code(&self, typecode: &[u8], variable: &[u8]) -> Option<Option<Code>>
        ensures { (keyword_place typecode_place variable_place : ℕ)
            → IsLeastFault self.now
            (λ n. floating_faults n keyword_place
            (token typecode_place typecode.now ∷ token variable_place variable.now ∷ []))
            (typing_fault keyword_place variable_place result) }
    {
        match self.names.symbol(variable) {
            Some(symbol) => {
                if Self::typecode_fault_code(self.names.symbol(typecode)).is_none()
                    && self.is_active(symbol)
                {
                    Some(self.floating_code(typecode, symbol))
                } else {
                    None
                }
            }
            None => None,
        }
    }
}

/// Returns what is known of the symbol after its declaration by the statement. `before` is what was
/// known of it.
fn declared_symbol<'a>(
    before: Option<SymbolEntry<'a>>,
    is_variable: bool,
    statement: u32,
    word: &'a [u8],
) -> SymbolEntry<'a>
    ensures { entry_of (Some result)
        ≡ declared_entry is_variable statement word.entry.now (entry_of before.entry) }
{
    match before {
        Some(old) => SymbolEntry {
            is_variable,
            declaration: statement,
            typing: old.typing,
            typecode: old.typecode,
        },
        None => SymbolEntry {
            is_variable,
            declaration: statement,
            typing: NEVER,
            typecode: word,
        },
    }
}

impl<'a, A: Allocator + Copy> Scope<'a, A> {
    /// Adds the block and the names of the next lawful statement. `numbers` has the numbers of its
    /// symbols.
    pub(crate) fn add(
        &mut self,
        text: &'a [u8],
        tokens: &[Word],
        outline: Outline,
        numbers: &[Sym],
    ) -> Result<(), AllocError>
        requires is_among_tokens { IsOutlineAmong text.now tokens.now outline }
        requires are_numbers { AreNumbersAfter self.old
            (declared_words (statement_of text.now tokens.now outline))
            (symbols_of (statement_of text.now tokens.now outline)) numbers.now }
        requires few_tokens { length tokens.now < 2 ^ 31 }
        requires is_scope_after { (db : List Statement)
            × IsScopeAfter db self.old × (length db < 2 ^ 31) }
        requires are_known { AreKnown self.old }
        ensures are_known { OnOk result (AreKnown self.new) }
        ensures is_next_scope { OnOk result
            (IsNextScope self.old self.new (statement_of text.now tokens.now outline)) }
        ensures names_are_declared { OnOk result
            (Declares self.old self.new
            (declared_words (statement_of text.now tokens.now outline))) }
    {
        let statement = self.blocks.len();
        self.blocks.push(outline.kind)?;
        self.add_names(text, tokens, outline, numbers, statement)
    }

    /// Adds the names of the statement. `numbers` has the numbers of its symbols.
    fn add_names(
        &mut self,
        text: &'a [u8],
        tokens: &[Word],
        outline: Outline,
        numbers: &[Sym],
        statement: u32,
    ) -> Result<(), AllocError>
        requires is_among_tokens { IsOutlineAmong text.now tokens.now outline }
        requires are_numbers { AreNumbersAfter self.old
            (declared_words (statement_of text.now tokens.now outline))
            (symbols_of (statement_of text.now tokens.now outline)) numbers.now }
        requires few_tokens { length tokens.now < 2 ^ 31 }
        requires are_known { AreKnown self.old }
        ensures are_known { OnOk result (AreKnown self.new) }
        ensures symbols_are_added { OnOk result
            ((w : List ℕ)
            → word_entry_in self.new w
            ≡ entry_after statement (statement_of text.now tokens.now outline) w
            (word_entry_in self.old w)) }
        ensures label_is_added { OnOk result
            ((w : List ℕ)
            → label_in self.new w
            ≡ label_after statement (label_of (statement_of text.now tokens.now outline)) w
            (label_in self.old w)) }
        ensures blocks_stay { self.new.blocks ≡ self.old.blocks }
        ensures names_are_declared { OnOk result
            (Declares self.old self.new
            (declared_words (statement_of text.now tokens.now outline))) }
    {
        let from = outline.keyword + 1;
        match outline.kind {
            Kind::Constants => {
                let is_variable = false;
                self.declare(text, tokens, outline, numbers, is_variable, statement)
            }
            Kind::Variables => {
                let is_variable = true;
                self.declare(text, tokens, outline, numbers, is_variable, statement)
            }
            Kind::Floating => {
                self.give_label(text, tokens, outline.keyword, statement)?;
                if outline.middle - outline.keyword == 3 {
                    self.give_type(text, tokens, from, statement)?;
                }
                Ok(())
            }
            Kind::Essential | Kind::Axiom | Kind::Theorem => {
                self.give_label(text, tokens, outline.keyword, statement)
            }
            _ => Ok(()),
        }
    }

    /// Makes the label before the keyword that of the statement.
    fn give_label(
        &mut self,
        text: &'a [u8],
        tokens: &[Word],
        keyword: u32,
        statement: u32,
    ) -> Result<(), AllocError>
        requires tokens_within { AreWithin text.now tokens.now }
        requires keyword_gt_0 { 0 < keyword }
        requires keyword_lt_length { keyword < length tokens.now }
        ensures label_is_added { OnOk result
            ((w : List ℕ)
            → label_in self.new w
            ≡ label_after statement (Some (token_at text.now tokens.now (keyword - 1))) w
            (label_in self.old w)) }
        ensures symbols_stay { OnOk result (self.new.names.symbols ≡ self.old.names.symbols) }
        ensures known_stay { self.new.known ≡ self.old.known }
        ensures blocks_stay { self.new.blocks ≡ self.old.blocks }
    {
        let token = tokens[keyword as usize - 1];
        self.names.set_label(token.bytes(text), statement)
    }

    /// Gives the variable after the typecode at `from` that type, by the statement, a `$f`.
    fn give_type(
        &mut self,
        text: &'a [u8],
        tokens: &[Word],
        from: u32,
        statement: u32,
    ) -> Result<(), AllocError>
        requires tokens_within { AreWithin text.now tokens.now }
        requires next_lt_length { from + 1 < length tokens.now }
        requires are_known { AreKnown self.old }
        ensures are_known { OnOk result (AreKnown self.new) }
        ensures labels_stay { OnOk result
            ((w : List ℕ) → label_in self.new w ≡ label_in self.old w) }
        ensures variable_is_typed { OnOk result
            ((w : List ℕ)
            → word_entry_in self.new w
            ≡ after_typing statement (token_at text.now tokens.now from).word
            (token_at text.now tokens.now (from + 1)).word (word_entry_in self.old) w) }
        ensures blocks_stay { self.new.blocks ≡ self.old.blocks }
        ensures names_stay { OnOk result
            (names_in self.new ≡ names_in self.old) }
    {
        let typecode_token = tokens[from as usize];
        let variable_token = tokens[from as usize + 1];
        let typecode = typecode_token.bytes(text);
        let word = variable_token.bytes(text);
        let (number, known) = self.names.numbered(word);
        match known {
            Some(old) => {
                let symbol = SymbolEntry {
                    is_variable: old.is_variable,
                    declaration: old.declaration,
                    typing: statement,
                    typecode,
                };
                self.set_symbol(word, number, symbol)
            }
            None => Ok(()),
        }
    }

    /// Declares the words of the statement, a `$c` or `$v`. `numbers` has their numbers.
    fn declare(
        &mut self,
        text: &'a [u8],
        tokens: &[Word],
        outline: Outline,
        numbers: &[Sym],
        is_variable: bool,
        statement: u32,
    ) -> Result<(), AllocError>
        requires is_among_tokens { IsOutlineAmong text.now tokens.now outline }
        requires keyword_lt_middle { outline.keyword < outline.middle }
        requires are_numbers { AreNumbersAfter self.old (listed_words text.now tokens.now outline)
            (between text.now tokens.now (outline.keyword + 1) outline.middle) numbers.now }
        requires are_known { AreKnown self.old }
        ensures are_known { OnOk result (AreKnown self.new) }
        ensures labels_stay { OnOk result
            ((w : List ℕ) → label_in self.new w ≡ label_in self.old w) }
        ensures symbols_are_declared { OnOk result
            ((w : List ℕ)
            → word_entry_in self.new w
            ≡ after_declaring is_variable statement (listed_words text.now tokens.now outline) w
            (word_entry_in self.old w)) }
        ensures blocks_stay { self.new.blocks ≡ self.old.blocks }
        ensures names_are_declared { OnOk result
            (Declares self.old self.new (listed_words text.now tokens.now outline)) }
    {
        let from = outline.keyword + 1;
        for token_index in from..outline.middle {
            let token = tokens[token_index as usize];
            let word = token.bytes(text);
            let number = numbers[(token_index - from) as usize];
            let symbol = declared_symbol(self.symbol_at(number), is_variable, statement, word);
            self.set_symbol(word, number.number() as usize, symbol)?;
        }
        Ok(())
    }
}
