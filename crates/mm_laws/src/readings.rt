//! The reading of a text, and its first fault.

ghost use Rattle.std.specs.Prelude.{ℕ, Bool};
ghost use Rattle.mm_spec.specs.Lexed.{LexedText};
ghost use Rattle.mm_laws.specs.Laws.SomeReading.{IsReadable};
ghost use Rattle.mm_laws.specs.Laws.FirstFaults.{IsSoundOrFaulty};

/// Each text is read: it has lawful statements, and the fault that stops the reading after them, if
/// there is one.
pub fn every_text_is_read()
    ensures { (len : ℕ) (lexed : LexedText) → IsReadable len lexed }
{}

/// Each text has a first fault, or it has none and all its proofs are valid. The same holds if open
/// theorems count as axioms.
pub fn texts_are_sound_or_faulty()
    ensures { (len : ℕ) (lexed : LexedText) (with_open : Bool)
        → IsSoundOrFaulty len lexed with_open }
{}
