//! The faults of the next statement.

ghost use Rattle.std.specs.Prelude.{◌≡◌, ◌<◌, ◌≤◌, ◌++◌, [], length, OnOk, IfOk, ◌^◌, false, true};
ghost use Rattle.std.specs.Prelude.{◌+◌, ◌-◌, ℕ, List, is_some, Some, if◌then◌else◌, bytes_eq};
ghost use Rattle.std.specs.List.Sorted.{IsStrictlyIncreasing};
ghost use Rattle.mm_spec.specs.Text.{is_in, words};
ghost use Rattle.mm_spec.specs.Statement.{symbols_of};
ghost use Rattle.mm_database.specs.Names.{find};
ghost use Rattle.mm_scope.specs.Formulas.{AreNumbersOnward};
ghost use Rattle.mm_spec.specs.Lawful.{faults_at, faults_at_each, least, when, symbol_codes};
ghost use Rattle.mm_spec.specs.Lawful.{formula_faults, floating_faults, label_faults, scope_faults};
ghost use Rattle.mm_spec.specs.Scope.{Names as DeclaredNames};
ghost use Rattle.mm_spec.specs.declared.Fault.{Fault as SpecFault};
ghost use Rattle.mm_outline.specs.Parts.{AreWithin, between, nth_word, token_at, statement_of};
ghost use Rattle.mm_scope.specs.Knows.{fault_at, listed_codes, lists_symbols};
ghost use Rattle.mm_scope.specs.Scopes.{AreKnown, IsLeastFault, IsOutlineAmong, names_in};

use crate::scope::Scope;
use mm_database::name_map::NameMap;
use mm_outline::parts::{Kind, Outline};
use mm_outline::symbol::Sym;
use mm_spec::{Code, Fault, Word};
use std::alloc::{AllocError, Allocator};

impl<'a, A: Allocator + Copy> Scope<'a, A> {
    /// Returns the first fault of the symbols of a formula after its typecode. `numbers` has the
    /// numbers of the symbols from the token `first` on.
    fn symbols_fault(
        &self,
        _text: &[u8],
        tokens: &[Word],
        first: u32,
        from: u32,
        to: u32,
        numbers: &[Sym],
    ) -> Option<Fault>
        requires are_known { AreKnown self.now }
        requires first_le_from { first ≤ from }
        requires from_le_to { from ≤ to }
        requires to_le_length { to ≤ length tokens.now }
        requires are_numbers { AreNumbersOnward (names_in self.now)
            (between _text.now tokens.now first to) numbers.now }
        ensures { IsLeastFault self.now
            (λ n. faults_at_each (symbol_codes n) [] (between _text.now tokens.now from to))
            result }
    {
        let mut least_found = None;
        for token_index in from..to {
            let symbol = self.symbol_at(numbers[(token_index - first) as usize]);
            let token = tokens[token_index as usize];
            least_found = lesser(
                least_found,
                fault_with_code(token.start, self.symbol_code(symbol)),
            );
        }
        least_found
    }

    /// Returns the first fault of the symbols of a `$c`, `$v` or `$d`. `numbers` has their numbers.
    fn listed_symbols_fault(
        &self,
        alloc: A,
        text: &'a [u8],
        tokens: &[Word],
        kind: Kind,
        from: u32,
        to: u32,
        numbers: &[Sym],
    ) -> Result<Option<Fault>, AllocError>
        requires tokens_within { AreWithin text.now tokens.now }
        requires are_known { AreKnown self.now }
        requires from_le_to { from ≤ to }
        requires to_lt_length { to < length tokens.now }
        requires are_numbers { AreNumbersOnward (names_in self.now)
            (between text.now tokens.now from to) numbers.now }
        ensures { IfOk result
            (IsLeastFault self.now
            (λ n. faults_at_each (listed_codes n kind) [] (between text.now tokens.now from to))) }
    {
        let are_ascending = ascend(numbers);
        let is_short = to - from <= MAX_WORDS_COMPARED;
        let mut seen = NameMap::new(alloc, self.names.keys());
        let mut least_found = None;
        for token_index in from..to {
            let repeated = !are_ascending
                && is_repeated(&mut seen, is_short, text, tokens, from, token_index)?;
            let token = tokens[token_index as usize];
            let word = token.bytes(text);
            let symbol = self.symbol_at(numbers[(token_index - from) as usize]);
            let code = self.listed_code(kind, word, symbol, repeated);
            least_found = lesser(least_found, fault_with_code(token.start, code));
        }
        Ok(least_found)
    }

    /// Returns the first fault of a formula, which ends at the token `to`. `numbers` has the
    /// numbers of its symbols.
    fn formula_fault(
        &self,
        text: &[u8],
        tokens: &[Word],
        from: u32,
        to: u32,
        numbers: &[Sym],
    ) -> Option<Fault>
        requires are_known { AreKnown self.now }
        requires from_le_to { from ≤ to }
        requires to_lt_length { to < length tokens.now }
        requires are_numbers { AreNumbersOnward (names_in self.now)
            (between text.now tokens.now from to) numbers.now }
        ensures { IsLeastFault self.now
            (λ n. formula_faults n (between text.now tokens.now from to)
            (nth_word tokens.now to).start) result }
    {
        if from == to {
            return fault_with_code(tokens[to as usize].start, Some(Code::BadTypecode));
        }
        let symbol = self.symbol_at(numbers[0]);
        let token = tokens[from as usize];
        let fault_of_typecode = fault_with_code(token.start, Self::typecode_fault_code(symbol));
        let fault_of_symbols = self.symbols_fault(text, tokens, from, from + 1, to, numbers);
        lesser(fault_of_typecode, fault_of_symbols)
    }

    /// Returns the fault of the label at the token `token_index`.
    fn label_fault(&self, text: &[u8], tokens: &[Word], token_index: u32) -> Option<Fault>
        requires tokens_within { AreWithin text.now tokens.now }
        requires index_lt_length { token_index < length tokens.now }
        ensures { IsLeastFault self.now
            (λ n. label_faults n (token_at text.now tokens.now token_index)) result }
    {
        let token = tokens[token_index as usize];
        fault_with_code(token.start, self.label_code(token.bytes(text)))
    }

    /// Returns the fault of the symbols of a `$f`.
    fn floating_fault(&self, text: &[u8], tokens: &[Word], keyword: u32, to: u32) -> Option<Fault>
        requires tokens_within { AreWithin text.now tokens.now }
        requires keyword_lt_to { keyword < to }
        requires to_lt_length { to < length tokens.now }
        ensures { IsLeastFault self.now
            (λ n. floating_faults n (nth_word tokens.now keyword).start
            (between text.now tokens.now (keyword + 1) to)) result }
    {
        if to - keyword != 3 {
            return fault_with_code(tokens[keyword as usize].start, Some(Code::BadFloating));
        }
        let typecode_token = tokens[keyword as usize + 1];
        let variable_token = tokens[keyword as usize + 2];
        let typecode = typecode_token.bytes(text);
        let variable = variable_token.bytes(text);
        match self.typing_code(typecode, variable) {
            Some(code) => fault_with_code(variable_token.start, code),
            None => fault_with_code(tokens[keyword as usize].start, Some(Code::BadFloating)),
        }
    }

    /// Returns the fault of a `$c`, `$v` or `$d` that isn't one of its symbols: that a `$c` stands
    /// in a block, or that there are too few symbols.
    fn whole_statement_fault(
        _text: &[u8],
        tokens: &[Word],
        depth: u32,
        outline: Outline,
    ) -> Option<Fault>
        requires is_among_tokens { IsOutlineAmong _text.now tokens.now outline }
        requires keyword_lt_middle { outline.keyword < outline.middle }
        requires kind_lists_symbols { lists_symbols outline.kind ≡ true }
        ensures { (n : DeclaredNames)
            → (faults : List SpecFault)
            × (result ≡ least faults)
            × (scope_faults n depth (statement_of _text.now tokens.now outline)
            ≡ faults
            ++ faults_at_each (listed_codes n outline.kind) []
            (between _text.now tokens.now (outline.keyword + 1) outline.middle)) }
    {
        let keyword_place = tokens[outline.keyword as usize].start;
        let end_place = tokens[outline.middle as usize].start;
        let symbol_count = outline.middle - outline.keyword - 1;
        match outline.kind {
            Kind::Constants => {
                let block_fault = fault_with_code(
                    keyword_place,
                    code_if(depth > 0, Code::ConstantInBlock),
                );
                lesser(
                    block_fault,
                    fault_with_code(
                        end_place,
                        code_if(symbol_count == 0, Code::EmptyDeclaration),
                    ),
                )
            }
            Kind::Variables => fault_with_code(
                end_place,
                code_if(symbol_count == 0, Code::EmptyDeclaration),
            ),
            _ => fault_with_code(end_place, code_if(symbol_count < 2, Code::TooFewVariables)),
        }
    }

    /// Returns the least fault of the next statement. `depth` is the number of blocks that are
    /// open, and `numbers` has the numbers of the statement's symbols.
    pub(crate) fn fault(
        &self,
        alloc: A,
        text: &'a [u8],
        tokens: &[Word],
        depth: u32,
        outline: Outline,
        numbers: &[Sym],
    ) -> Result<Option<Fault>, AllocError>
        requires is_among_tokens { IsOutlineAmong text.now tokens.now outline }
        requires are_known { AreKnown self.now }
        requires are_numbers { AreNumbersOnward (names_in self.now)
            (symbols_of (statement_of text.now tokens.now outline)) numbers.now }
        ensures { IfOk result
            (IsLeastFault self.now
            (λ n. scope_faults n depth (statement_of text.now tokens.now outline))) }
    {
        let keyword = outline.keyword;
        let middle = outline.middle;
        match outline.kind {
            Kind::Open => Ok(None),
            Kind::Close => Ok(None),
            Kind::Constants => self.listing_fault(alloc, text, tokens, depth, outline, numbers),
            Kind::Variables => self.listing_fault(alloc, text, tokens, depth, outline, numbers),
            Kind::Disjoint => self.listing_fault(alloc, text, tokens, depth, outline, numbers),
            Kind::Floating => {
                let fault_of_label = self.label_fault(text, tokens, keyword - 1);
                Ok(lesser(
                    fault_of_label,
                    self.floating_fault(text, tokens, keyword, middle),
                ))
            }
            Kind::Essential => Ok(self.labelled_fault(text, tokens, outline, numbers)),
            Kind::Axiom => Ok(self.labelled_fault(text, tokens, outline, numbers)),
            Kind::Theorem => Ok(self.labelled_fault(text, tokens, outline, numbers)),
        }
    }

    /// Returns the least fault of a label and a formula. `numbers` has the numbers of the formula's
    /// symbols.
    fn labelled_fault(
        &self,
        text: &[u8],
        tokens: &[Word],
        outline: Outline,
        numbers: &[Sym],
    ) -> Option<Fault>
        requires is_among_tokens { IsOutlineAmong text.now tokens.now outline }
        requires keyword_gt_0 { 0 < outline.keyword }
        requires keyword_lt_middle { outline.keyword < outline.middle }
        requires are_known { AreKnown self.now }
        requires are_numbers { AreNumbersOnward (names_in self.now)
            (between text.now tokens.now (outline.keyword + 1) outline.middle) numbers.now }
        ensures { IsLeastFault self.now
            (λ n. label_faults n (token_at text.now tokens.now (outline.keyword - 1))
            ++ formula_faults n
            (between text.now tokens.now (outline.keyword + 1) outline.middle)
            (nth_word tokens.now outline.middle).start) result }
    {
        let fault_of_label = self.label_fault(text, tokens, outline.keyword - 1);
        let from = outline.keyword + 1;
        let fault_of_formula = self.formula_fault(text, tokens, from, outline.middle, numbers);
        lesser(fault_of_label, fault_of_formula)
    }

    /// Returns the least fault of a `$c`, `$v` or `$d`. `numbers` has the numbers of its symbols.
    fn listing_fault(
        &self,
        alloc: A,
        text: &'a [u8],
        tokens: &[Word],
        depth: u32,
        outline: Outline,
        numbers: &[Sym],
    ) -> Result<Option<Fault>, AllocError>
        requires is_among_tokens { IsOutlineAmong text.now tokens.now outline }
        requires keyword_lt_middle { outline.keyword < outline.middle }
        requires kind_lists_symbols { lists_symbols outline.kind ≡ true }
        requires are_known { AreKnown self.now }
        requires are_numbers { AreNumbersOnward (names_in self.now)
            (between text.now tokens.now (outline.keyword + 1) outline.middle) numbers.now }
        ensures { IfOk result
            (IsLeastFault self.now
            (λ n. scope_faults n depth (statement_of text.now tokens.now outline))) }
    {
        let from = outline.keyword + 1;
        let fault_of_symbols = self.listed_symbols_fault(
            alloc,
            text,
            tokens,
            outline.kind,
            from,
            outline.middle,
            numbers,
        )?;
        let fault_of_statement = Self::whole_statement_fault(text, tokens, depth, outline);
        Ok(lesser(fault_of_statement, fault_of_symbols))
    }
}

/// Returns the code if the test holds.
fn code_if(holds: bool, code: Code) -> Option<Code>
    ensures { (place : ℕ) → fault_at place result ≡ least (faults_at place (when holds code)) }
{
    if holds { Some(code) } else { None }
}

/// Returns the fault with the code at a place, if any.
#[inline(always)]
fn fault_with_code(at: u32, code: Option<Code>) -> Option<Fault>
    ensures { result ≡ fault_at at code }
{
    match code {
        Some(code) => Some(Fault { at, code }),
        None => None,
    }
}

/// Returns the least fault of two lists, by the least of each. The place decides, and at the same
/// place the number of the code.
#[inline(always)]
fn lesser(first: Option<Fault>, second: Option<Fault>) -> Option<Fault>
    ensures { (earlier later : List SpecFault)
        → first ≡ least earlier
        → second ≡ least later
        → result ≡ least (earlier ++ later) }
{
    let Some(second_fault) = second else {
        return first;
    };
    match first {
        Some(first_fault) => {
            if first_fault.at < second_fault.at
                || (first_fault.at == second_fault.at
                    && first_fault.code.number() <= second_fault.code.number())
            {
                first
            } else {
                second
            }
        }
        None => second,
    }
}

/// Whether each number is greater than the one before it. No word then occurs twice among the words
/// with these numbers. The words of a `$c` have such numbers, and those of most `$v` and `$d`.
fn ascend(numbers: &[Sym]) -> bool
    ensures { result ≡ true → IsStrictlyIncreasing numbers.now }
{
    for index in 1..numbers.len() {
        if numbers[index].number() <= numbers[index - 1].number() {
            return false;
        }
    }
    true
}

/// In a list of at most this many words, of which the numbers don't ascend, each word is compared
/// with those before it. The words of a longer one are kept in a map.
const MAX_WORDS_COMPARED: u32 = 16;

/// Whether the word at `token_index` is among the words before it, from `from` on.
fn is_among(text: &[u8], tokens: &[Word], from: u32, token_index: u32) -> bool
    requires tokens_within { AreWithin text.now tokens.now }
    requires from_le_index { from ≤ token_index }
    requires index_lt_length { token_index < length tokens.now }
    ensures { result
        ≡ is_in (token_at text.now tokens.now token_index).word
        (words (between text.now tokens.now from token_index)) }
{
    let token = tokens[token_index as usize];
    let word = token.bytes(text);
    let mut is_found = false;
    for earlier in from..token_index {
        let other = tokens[earlier as usize];
        is_found = word == other.bytes(text) || is_found;
    }
    is_found
}

/// Whether the word at `token_index` of a list that begins at `from` occurs earlier in the list. If
/// the list isn't short, `seen` has the words before `token_index`, and the call adds the one at
/// `token_index`.
fn is_repeated<'a, A: Allocator + Copy>(
    seen: &mut NameMap<'a, u32, A>,
    is_short: bool,
    text: &'a [u8],
    tokens: &[Word],
    from: u32,
    token_index: u32,
) -> Result<bool, AllocError>
    requires tokens_within { AreWithin text.now tokens.now }
    requires from_le_index { from ≤ token_index }
    requires index_lt_length { token_index < length tokens.now }
    requires seen_has_earlier_words { is_short ≡ false → (w : List ℕ)
        → is_some (find seen.old w)
        ≡ is_in w (words (between text.now tokens.now from token_index)) }
    ensures tells_repeated { IfOk result
        (λ b. b ≡ is_in (token_at text.now tokens.now token_index).word
        (words (between text.now tokens.now from token_index))) }
    ensures word_is_seen { OnOk result
        (is_short ≡ false → (w : List ℕ)
        → is_some (find seen.new w)
        ≡ is_in w (words (between text.now tokens.now from (token_index + 1)))) }
{
    if is_short {
        Ok(is_among(text, tokens, from, token_index))
    } else {
        let token = tokens[token_index as usize];
        seen.insert(token.bytes(text), 0)
    }
}
