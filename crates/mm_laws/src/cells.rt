//! Cells of the matrix, and waves.

ghost use Rattle.std.specs.Prelude.{ℕ, Bool};
ghost use Rattle.mm_spec.specs.Lexed.{LexedText};
ghost use Rattle.mm_laws.specs.Laws.Cells.{AreDecided};
ghost use Rattle.mm_laws.specs.Laws.OneWave.{HaveWaves};

/// In a text without faults it is decided whether a theorem rests on a statement.
pub fn cells_are_decided()
    ensures { (len : ℕ) (lexed : LexedText) (with_open : Bool) → AreDecided len lexed with_open }
{}

/// In a text without faults each theorem has one wave.
pub fn theorems_have_one_wave()
    ensures { (len : ℕ) (lexed : LexedText) (with_open : Bool) → HaveWaves len lexed with_open }
{}
