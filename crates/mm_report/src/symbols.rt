//! Words and symbols after spaces.

ghost use Rattle.std.specs.Prelude.{◌<◌, ◌∷◌, All, length};
ghost use Rattle.mm_spec.specs.Frame.{symbol_names};
ghost use Rattle.mm_spec.specs.Assertion.{name_at, symbols_text};
ghost use Rattle.mm_report.specs.Sent.{Sent};

use crate::sink::Sink;
use mm_database::Database;
use mm_outline::symbol::Sym;
use std::alloc::Allocator;
use std::io::Write;

/// Sends a word, after a space.
pub(crate) fn send_spaced<W: Write>(sink: &mut Sink, to: &mut W, word: &[u8])
    ensures { Sent (W.contents to.old) (W.contents to.new) sink.old sink.new (32 ∷ word.now) }
{
    sink.send_byte(to, b' ');
    sink.send(to, word);
}

/// Sends the name of a symbol, after a space.
pub(crate) fn send_symbol<W: Write, D: Allocator>(
    sink: &mut Sink,
    to: &mut W,
    database: &Database<'_, D>,
    symbol: Sym,
)
    requires { symbol < length (symbol_names database.now.statements) }
    ensures { Sent (W.contents to.old) (W.contents to.new) sink.old sink.new
        (32 ∷ name_at database.now.statements symbol) }
{
    send_spaced(sink, to, database.name(symbol));
}

/// Sends the names of symbols, each after a space.
pub(crate) fn send_symbols<W: Write, D: Allocator>(
    sink: &mut Sink,
    to: &mut W,
    database: &Database<'_, D>,
    symbols: &[Sym],
)
    requires { All (λ s. s < length (symbol_names database.now.statements)) symbols.now }
    ensures { Sent (W.contents to.old) (W.contents to.new) sink.old sink.new
        (symbols_text database.now.statements symbols.now) }
{
    for symbol in symbols {
        send_symbol(sink, to, database, *symbol);
    }
}
