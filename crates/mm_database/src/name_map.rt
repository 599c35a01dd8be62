//! A map whose keys are names, in the order in which these were added.

ghost use Rattle.std.specs.Prelude.{◌≡◌, [], ℕ, List, Some, IfOk, IfSome, OnOk, bytes_eq};
ghost use Rattle.std.specs.Prelude.{if◌then◌else◌, is_some, length, slice_get, IfNone, ◌≢◌};
ghost use Rattle.std.specs.Prelude.{◌+◌, ◌<◌, ◌≤◌, ◌^◌};
ghost use Rattle.std.specs.Option.{option_map};
ghost use Rattle.mm_spec.specs.Frame.{index_of};
ghost use Rattle.mm_database.specs.Guesses.{AreGuessed, IsGuessed, first_place, no_guess};
ghost use Rattle.mm_database.specs.Names.{find, names_of, with_name};

use crate::name::Name;
use crate::text_keyed::TextKeyed;
use indexmap::IndexMap;
use std::alloc::{AllocError, Allocator};
use std::marker::Model;

/// Stands for a guess that hasn't been made.
const NO_GUESS: u32 = 4_294_967_295;

/// The number of places for the guesses of names of one byte, one for each byte.
const ONE_BYTE_PLACES: usize = 256;

/// The number of places for the guesses of longer names at first.
const FIRST_PLACES: usize = 256;

/// How many places the guess for a name can have, one after the other.
const WINDOW: usize = 4;

/// Names, each with a value, in the order in which they were added. The index of a name is guessed
/// by the name's ends and its length. A guess is verified before use, so most names are found by
/// one comparison, without a hash. A guess stands in the first place that was free, so a word of
/// which a place is free, and no guess before that is right, is no name.
pub struct NameMap<'a, V: Copy, A: Allocator> {
    entries: IndexMap<Name<'a>, V, TextKeyed, A>,
    guesses: Vec<u32, A>,
}

/// Dropped in one call: docs/PROOFS.md, "What a check costs".
impl<'a, V: Copy, A: Allocator> Drop for NameMap<'a, V, A> {
    fn drop(self) {
        let Self {
            entries: _,
            guesses: _,
        } = self;
    }
}

impl<'a, V: Copy, A: Allocator> Model for NameMap<'a, V, A> {
    ghost use Rattle.std.specs.Prelude.{◌≡◌, List, true};
    ghost use Rattle.mm_database.specs.declared.name.Name.{Name as SpecName};
    ghost use Rattle.mm_database.specs.Guesses.{AreGuessed};
    ghost use Rattle.mm_database.specs.Names.{are_distinct, names_of};

    ghost Value = { List (SpecName × V) };

    ghost view = { λ m. m.entries.entries };

    ghost invariant = { λ m. (are_distinct (names_of m.entries.entries) ≡ true)
        × AreGuessed (names_of m.entries.entries) m.guesses.items };
}

/// Returns the first place of the guess for a name among so many. For a name of one byte, as most
/// symbols of a formula are, it is that byte. For others it is behind these places, so that no
/// longer name stands in the place of a byte. It goes by the upper bits of a sum of products, since
/// a product's upper bits depend on more bits of its factors than its lower bits do. The factors
/// are odd numbers whose bits look random, as hash functions have them (xxHash).
#[inline(always)]
fn first_place(word: &Name, count: usize) -> usize
    ensures is_first_place { result ≡ first_place word.now.bytes.now count }
    ensures is_small { result < 2 ^ 33 }
{
    if word.bytes.len() == 1 {
        return word.bytes[0] as usize;
    }
    let (first, last) = word.ends();
    let sum = first
        .wrapping_mul(0x9E37_79B1_85EB_CA87)
        .wrapping_add(last.wrapping_mul(0xC2B2_AE3D_27D4_EB4F))
        .wrapping_add((word.bytes.len() as u64).wrapping_mul(0x1656_67B1_9E37_79F9));
    let longer = count.saturating_sub(ONE_BYTE_PLACES);
    ONE_BYTE_PLACES + ((sum / 0x1_0000_0000) as usize).wrapping_mul(longer) / 0x1_0000_0000
}

/// Returns the guess at a place, if there is such a place.
#[inline(always)]
fn guess_at<A: Allocator>(guesses: &Vec<u32, A>, place: usize) -> Option<u32>
    ensures { result ≡ slice_get guesses.now.items place }
{
    guesses.get(place).copied()
}

/// Puts a guess into the first free one of its places, if one is free.
fn put_guess<A: Allocator>(guesses: &mut Vec<u32, A>, word: &Name, guess: u32)
    requires { guess < no_guess }
    ensures is_guessed { IsGuessed guesses.new.items word.now.bytes.now guess }
    ensures others_stay { (w : List ℕ) (i : ℕ) → IsGuessed guesses.old.items w i
        → IsGuessed guesses.new.items w i }
{
    let first = first_place(word, guesses.len());
    for place in first..first + WINDOW {
        if let Some(before) = guess_at(guesses, place) {
            if before == NO_GUESS {
                guesses[place] = guess;
                return;
            }
        }
    }
}

/// Sets the guess for a name. An index that is too large for a guess leaves no guesses.
fn set_guess<A: Allocator>(guesses: &mut Vec<u32, A>, word: &Name, index: usize)
    ensures is_guessed { IsGuessed guesses.new.items word.now.bytes.now index }
    ensures others_stay { (w : List ℕ) (i : ℕ) → IsGuessed guesses.old.items w i
        → IsGuessed guesses.new.items w i }
{
    if index < NO_GUESS as usize {
        put_guess(guesses, word, index as u32);
    } else {
        guesses.clear();
    }
}

/// Makes four times as many places for guesses as there is room for names, behind those for names
/// of one byte, and sets the guess for each name. Without memory for them there are no guesses, and
/// names are found by their hashes.
fn renew_guesses<'a, V: Copy, A: Allocator>(
    entries: &IndexMap<Name<'a>, V, TextKeyed, A>,
    guesses: &mut Vec<u32, A>,
)
    ensures { AreGuessed (names_of entries.now.entries) guesses.new.items }
{
    let longer = entries.capacity().saturating_mul(4).max(FIRST_PLACES);
    let count = longer.saturating_add(ONE_BYTE_PLACES);
    guesses.clear();
    if guesses.resize(count, NO_GUESS).is_err() {
        return;
    }
    for index in 0..entries.len() {
        if let Some((name, _)) = entries.get_index(index) {
            set_guess(guesses, name, index);
        }
    }
}

/// Sets the guess for a name that was added, and makes more places where there are few for so many
/// names.
fn add_guess<'a, V: Copy, A: Allocator>(
    entries: &IndexMap<Name<'a>, V, TextKeyed, A>,
    guesses: &mut Vec<u32, A>,
    word: &Name,
    index: usize,
)
    requires is_name { slice_get (names_of entries.now.entries) index ≡ Some word.now.bytes.now }
    requires others_are_guessed { (i : ℕ) (w : List ℕ) → i ≢ index
        → slice_get (names_of entries.now.entries) i ≡ Some w → IsGuessed guesses.old.items w i }
    ensures { AreGuessed (names_of entries.now.entries) guesses.new.items }
{
    if index < guesses.len() / 2 {
        set_guess(guesses, word, index);
    } else {
        renew_guesses(entries, guesses);
    }
}

impl<'a, V: Copy, A: Allocator> NameMap<'a, V, A> {
    /// How many names there are.
    pub fn len(&self) -> usize
        ensures { result ≡ length self.now }
    {
        self.entries.len()
    }

    /// Returns the keys of the map's hash.
    pub fn keys(&self) -> TextKeyed {
        *self.entries.hasher()
    }

    /// Returns the name with this index and its value.
    #[inline(always)]
    pub fn get_index(&self, index: usize) -> Option<(&Name<'a>, &V)>
        ensures entry { option_map (λ e. (e.0.now, e.1.now)) result ≡ slice_get self.now index }
        ensures is_found { IfSome result
            (λ e. find self.now e.0.now.bytes.now ≡ Some e.1.now) }
    {
        self.entries.get_index(index)
    }

    /// Returns the value of the name with this index, if the name is the word.
    #[inline(always)]
    fn value_at(&self, index: usize, word: &Name) -> Option<&V>
        ensures index_is { IfSome result
            (λ v. index ≡ index_of word.now.bytes.now (names_of self.now)) }
        ensures value_is { IfSome result (λ v. Some v.now ≡ find self.now word.now.bytes.now) }
        ensures is_other { IfNone result
            (slice_get (names_of self.now) index ≢ Some word.now.bytes.now) }
    {
        let (name, value) = self.entries.get_index(index)?;
        if name.is(word) { Some(value) } else { None }
    }

    /// Returns the same as `get_full`. It isn't compiled into the callers of `get_full`, so that
    /// they needn't free registers for it: most names are guessed at once.
    #[inline(never)]
    fn looked_up(&self, word: &Name) -> (usize, Option<&V>)
        ensures index_is { result.0 ≡ index_of word.now.bytes.now (names_of self.now) }
        ensures value_is { option_map (λ v. v.now) result.1 ≡ find self.now word.now.bytes.now }
    {
        let first = first_place(word, self.guesses.len());
        for place in first..first + WINDOW {
            if let Some(guess) = guess_at(&self.guesses, place) {
                if guess == NO_GUESS {
                    return (self.entries.len(), None);
                }
                if let Some(value) = self.value_at(guess as usize, word) {
                    return (guess as usize, Some(value));
                }
            }
        }
        self.hashed(word)
    }

    /// Returns the same as `get_full`, without guesses.
    fn hashed(&self, word: &Name) -> (usize, Option<&V>)
        ensures index_is { result.0 ≡ index_of word.now.bytes.now (names_of self.now) }
        ensures value_is { option_map (λ v. v.now) result.1 ≡ find self.now word.now.bytes.now }
    {
        match self.entries.get_full(*word) {
            Some((index, _, value)) => (index, Some(value)),
            None => (self.entries.len(), None),
        }
    }

    /// Returns the index of a name and its value. If the word isn't a name, returns the count of
    /// names and `None`.
    #[inline(always)]
    pub fn get_full(&self, word: &[u8]) -> (usize, Option<&V>)
        ensures index_is { result.0 ≡ index_of word.now (names_of self.now) }
        ensures value_is { option_map (λ v. v.now) result.1 ≡ find self.now word.now }
    {
        let name = Name::new(word);
        if let Some(guess) = guess_at(&self.guesses, first_place(&name, self.guesses.len())) {
            let index = guess as usize;
            if let Some(value) = self.value_at(index, &name) {
                return (index, Some(value));
            }
        }
        self.looked_up(&name)
    }
}

impl<'a, V: Copy, A: Allocator + Copy> NameMap<'a, V, A> {
    /// No names.
    pub fn new(alloc: A, keys: TextKeyed) -> Self
        ensures { result ≡ [] }
    {
        NameMap {
            entries: IndexMap::with_hasher(alloc, keys),
            guesses: Vec::new(alloc),
        }
    }

    /// No names, with room for so many.
    pub fn with_capacity(alloc: A, keys: TextKeyed, names: usize) -> Result<Self, AllocError>
        ensures { IfOk result (λ m. m ≡ []) }
    {
        Ok(NameMap {
            entries: IndexMap::with_capacity_and_hasher(alloc, names, keys)?,
            guesses: Vec::new(alloc),
        })
    }

    /// Sets the value of a name, and returns whether the name was there before. A new name gets the
    /// next index.
    pub fn insert(&mut self, word: &'a [u8], value: V) -> Result<bool, AllocError>
        ensures was_there { IfOk result (λ b. b ≡ is_some (find self.old word.now)) }
        ensures value_is_set { OnOk result
            ((w : List ℕ)
            → find self.new w ≡ (if bytes_eq word.now w then Some value else find self.old w)) }
        ensures name_is_added { OnOk result
            (names_of self.new ≡ with_name word.now (names_of self.old)) }
    {
        self.insert_name(Name::new(word), value)
    }

    /// The same as `insert`, by the name.
    fn insert_name(&mut self, name: Name<'a>, value: V) -> Result<bool, AllocError>
        ensures was_there { IfOk result (λ b. b ≡ is_some (find self.old name.entry.bytes.now)) }
        ensures value_is_set { OnOk result
            ((w : List ℕ)
            → find self.new w
            ≡ (if bytes_eq name.entry.bytes.now w then Some value else find self.old w)) }
        ensures name_is_added { OnOk result
            (names_of self.new ≡ with_name name.entry.bytes.now (names_of self.old)) }
    {
        let (index, before) = self.entries.insert_full(name, value)?;
        if before.is_some() {
            return Ok(true);
        }
        add_guess(&self.entries, &mut self.guesses, &name, index);
        Ok(false)
    }
}
