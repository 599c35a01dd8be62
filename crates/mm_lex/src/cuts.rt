//! Where a text is cut into pieces.

ghost use Rattle.std.specs.Prelude.{◌≡◌, ◌<◌, ◌≤◌, ◌+◌, ◌-◌, ◌*◌, ◌/◌, ◌^◌, ℕ, length, map, IfOk};
ghost use Rattle.std.specs.Prelude.{IfErr, vec_len};
ghost use Rattle.std.specs.List.{range_with_len};
ghost use Rattle.mm_lex.specs.Places.{CutText, cut_text, IsCutText, AreSorted, IsWithin, IsRefused};

use std::alloc::{AllocError, Allocator};
use std::marker::Model;
use thiserror::Error;

/// Why the given places aren't cuts of a text.
#[derive(Clone, Copy, Debug, PartialEq, Eq, Drop, Error)]
pub enum CutsFault {
    /// A place is less than the one before it.
    #[error("a place is less than the one before it")]
    NotSorted,
    /// A place is above the text's length.
    #[error("a place is past the end of the text")]
    PastEnd,
}

/// The places at which a text of a given length is cut, byte offsets from 0: none is less than the
/// one before it, and none is above the length. Between two equal places there is an empty piece.
#[derive(Drop)]
pub struct Cuts<A: Allocator> {
    places: Vec<u32, A>,
    len: usize,
}

impl<A: Allocator> Model for Cuts<A> {
    ghost Value = { CutText };

    ghost view = { λ c. cut_text c.places.items c.len };

    ghost invariant = { λ c. IsCutText (cut_text c.places.items c.len) };
}

impl<A: Allocator + Copy> Cuts<A> {
    /// Cuts a text of `len` bytes, at most 2,147,483,648, into `count` pieces, 1 to 65,536, whose
    /// lengths differ by at most one byte. Fails only if out of memory.
    pub fn equal(alloc: A, len: usize, count: u32) -> Result<Cuts<A>, AllocError>
        requires len_le_2_31 { len ≤ 2 ^ 31 }
        requires some_pieces { 0 < count }
        requires count_le_65536 { count ≤ 65536 }
        ensures { IfOk result
            (λ c. c ≡ cut_text
            (map (λ i. len * (i + 1) / count) (range_with_len 0 (count - 1))) len) }
    {
        let mut places = Vec::new(alloc);
        for i in 0..count - 1 {
            places.push((len * (i as usize + 1) / count as usize) as u32)?;
        }
        Ok(Cuts { places, len })
    }

    /// Cuts a text of `len` bytes at the given places, without allocating memory. Fails with
    /// `NotSorted` if a place is less than the one before it, otherwise with `PastEnd` if one is
    /// above `len`; then the list is dropped.
    pub fn from_places(places: Vec<u32, A>, len: usize) -> Result<Cuts<A>, CutsFault>
        ensures are_cuts { IfOk result (λ c. c ≡ cut_text places.items len) }
        ensures is_refused { IfErr result (λ e. IsRefused e (cut_text places.items len)) }
    {
        for i in 1..places.len() {
            if places[i] < places[i - 1] {
                return Err(CutsFault::NotSorted);
            }
        }
        for place in &places {
            if *place as usize > len {
                return Err(CutsFault::PastEnd);
            }
        }
        Ok(Cuts { places, len })
    }

    /// The places.
    pub fn places(&self) -> &[u32]
        ensures places_are { result.now ≡ self.now.places }
        ensures are_cuts { IsCutText self.now }
    {
        self.places.as_slice()
    }

    /// The length of the texts that these places cut.
    pub fn text_len(&self) -> usize
        ensures len_is { result ≡ self.now.len }
        ensures are_cuts { IsCutText self.now }
    {
        self.len
    }
}
