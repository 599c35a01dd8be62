//! The bytes of a word.

ghost use Rattle.std.specs.Prelude.{◌≡◌, ◌≤◌, length};
ghost use Rattle.mm_spec.specs.Readings.{bytes_of};

use crate::Word;

impl Word {
    /// The bytes of the word in its text.
    #[inline(always)]
    pub fn bytes<'a>(&self, text: &'a [u8]) -> &'a [u8]
        requires start_le_end { self.now.start ≤ self.now.end }
        requires end_le_length { self.now.end ≤ length text.now }
        ensures { result.now ≡ bytes_of text.now self.now }
    {
        &text[self.start as usize..self.end as usize]
    }
}
