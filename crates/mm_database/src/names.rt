//! The names before a statement: symbols and labels.

ghost use Rattle.std.specs.Prelude.{◌≡◌, ◌<◌, OnOk, IfOk, IfSome, false, length, slice_get, get_or};
ghost use Rattle.std.specs.Prelude.{ℕ, List, [], is_some, Some, if◌then◌else◌, bytes_eq};
ghost use Rattle.std.specs.Option.{option_map};
ghost use Rattle.mm_spec.specs.Frame.{index_of};
ghost use Rattle.mm_database.specs.Names.{find, known_names, names_of, with_name, is_variable_in};

use crate::name_map::NameMap;
use crate::text_keyed::TextKeyed;
use std::alloc::{AllocError, Allocator};
use std::marker::Model;

/// What is known of a symbol. Of a constant only the first field means anything.
#[derive(Clone, Copy, Drop)]
pub struct SymbolEntry<'a> {
    pub is_variable: bool,
    /// The statement that declared the variable last.
    pub declaration: u32,
    /// The last `$f` of the variable, or `NEVER` if it has none yet.
    pub typing: u32,
    /// The typecode of that `$f`; the symbol itself, if there is none yet.
    pub typecode: &'a [u8],
}

/// The symbols and the labels.
pub struct NameTable<'a, A: Allocator> {
    symbols: NameMap<'a, SymbolEntry<'a>, A>,
    labels: NameMap<'a, u32, A>,
}

/// Dropped in one call: docs/PROOFS.md, "What a check costs".
impl<'a, A: Allocator> Drop for NameTable<'a, A> {
    fn drop(self) {
        let Self {
            symbols: _,
            labels: _,
        } = self;
    }
}

impl<'a, A: Allocator> Model for NameTable<'a, A> {
    ghost use Rattle.mm_database.specs.Names.{KnownNames, known_names};

    ghost Value = { KnownNames };

    ghost view = { λ t. known_names t.symbols t.labels };
}

/// Returns a table without symbols and labels, whose maps hash with these keys. There is room for
/// so many labels.
pub fn no_names<'a, A: Allocator + Copy>(
    alloc: A,
    keys: TextKeyed,
    labels: usize,
) -> Result<NameTable<'a, A>, AllocError>
    ensures { IfOk result (λ t. t ≡ known_names [] []) }
{
    Ok(NameTable {
        symbols: NameMap::new(alloc, keys),
        labels: NameMap::with_capacity(alloc, keys, labels)?,
    })
}

impl<'a, A: Allocator> NameTable<'a, A> {
    /// Returns the keys of the maps' hash.
    pub fn keys(&self) -> TextKeyed {
        self.symbols.keys()
    }

    /// Returns the name of the symbol with this number.
    #[inline(always)]
    pub(crate) fn name(&self, number: usize) -> &'a [u8]
        requires { number < length (names_of self.now.symbols) }
        ensures { slice_get (names_of self.now.symbols) number ≡ Some result.now }
    {
        match self.symbols.get_index(number) {
            Some((name, _)) => name.bytes,
            None => unreachable!("each symbol has a name"),
        }
    }

    /// Returns the number of the symbol with this name, or the count of symbols if none has it.
    pub(crate) fn number(&self, name: &[u8]) -> usize
        ensures { result ≡ index_of name.now (names_of self.now.symbols) }
    {
        let (number, _) = self.symbols.get_full(name);
        number
    }

    /// Returns the statement of a label, or `None` if the word isn't a label.
    #[inline(always)]
    pub(crate) fn labelled(&self, word: &[u8]) -> Option<u32>
        ensures { result ≡ find self.now.labels word.now }
    {
        let (_, statement) = self.labels.get_full(word);
        statement.copied()
    }
}

impl<'a, A: Allocator + Copy> NameTable<'a, A> {
    /// Returns what is known of a word as a symbol, or `None` if it isn't a symbol.
    pub fn symbol(&self, word: &[u8]) -> Option<SymbolEntry<'a>>
        ensures { result ≡ find self.now.symbols word.now }
    {
        let (_, known) = self.numbered(word);
        known
    }

    /// Returns the symbol's number, in the order of first declarations, and what is known of it. If
    /// the word isn't a symbol, returns the count of symbols and `None`.
    #[inline(always)]
    pub fn numbered(&self, word: &[u8]) -> (usize, Option<SymbolEntry<'a>>)
        ensures number_is_index { result.0 ≡ index_of word.now (names_of self.now.symbols) }
        ensures symbol_is_found { result.1 ≡ find self.now.symbols word.now }
    {
        let (number, symbol) = self.symbols.get_full(word);
        (number, symbol.copied())
    }

    /// Whether the word is a label.
    pub fn is_label(&self, word: &[u8]) -> bool
        ensures { result ≡ is_some (find self.now.labels word.now) }
    {
        self.labelled(word).is_some()
    }

    /// Sets the entry of the symbol with this name. A new symbol gets the next number.
    pub fn set_symbol(&mut self, word: &'a [u8], symbol: SymbolEntry<'a>) -> Result<(), AllocError>
        ensures symbol_is_set { OnOk result
            ((w : List ℕ)
            → find self.new.symbols w
            ≡ (if bytes_eq word.now w then Some symbol.entry else find self.old.symbols w)) }
        ensures labels_stay { OnOk result
            ((w : List ℕ) → find self.new.labels w ≡ find self.old.labels w) }
        ensures name_is_added { OnOk result
            (names_of self.new.symbols ≡ with_name word.now (names_of self.old.symbols)) }
    {
        self.symbols.insert(word, symbol)?;
        Ok(())
    }

    /// Sets the statement of a label.
    pub fn set_label(&mut self, word: &'a [u8], statement: u32) -> Result<(), AllocError>
        ensures label_is_set { OnOk result
            ((w : List ℕ)
            → find self.new.labels w
            ≡ (if bytes_eq word.now w then Some statement else find self.old.labels w)) }
        ensures symbols_stay { OnOk result (self.new.symbols ≡ self.old.symbols) }
    {
        self.labels.insert(word, statement)?;
        Ok(())
    }

    /// Returns for each symbol, by its number, whether it is a variable.
    pub fn variable_flags(&self, alloc: A) -> Result<Vec<bool, A>, AllocError>
        ensures count_is { IfOk result (λ v. length v.items ≡ length (names_of self.now.symbols)) }
        ensures flags_are { IfOk result
            (λ v. (i : ℕ) (w : List ℕ) → slice_get (names_of self.now.symbols) i ≡ Some w
            → get_or v.items i false ≡ is_variable_in (find self.now.symbols w)) }
    {
        let mut variable_flags = Vec::new(alloc);
        for i in 0..self.symbols.len() {
            let is_variable = match self.symbols.get_index(i) {
                Some((_, symbol)) => symbol.is_variable,
                None => false,
            };
            variable_flags.push(is_variable)?;
        }
        Ok(variable_flags)
    }
}
