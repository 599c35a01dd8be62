//! The hash of the maps of names, which is keyed by the text.

ghost use Rattle.mm_database.specs.TextKeyed.{hasher_with};

use core::hash::{BuildHasher, DefaultHasher, keyed_hasher};

/// Two keys, with which a map of names hashes (SipHash). They are made of the text, so that
/// whoever writes a text can't know them before the text is whole.
#[derive(Clone, Copy)]
pub struct TextKeyed {
    pub key0: u64,
    pub key1: u64,
}

impl BuildHasher for TextKeyed {
    type Hasher = DefaultHasher;

    ghost build_hasher = { hasher_with };

    fn build_hasher(&self) -> DefaultHasher {
        keyed_hasher(self.key0, self.key1)
    }
}
