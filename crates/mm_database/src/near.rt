//! The `$d` shortly before a statement, which answer most calls of `disjoint_at`.

ghost use Rattle.std.specs.Prelude.{◌≡◌, ◌≤◌, length, true};
ghost use Rattle.mm_spec.specs.Derivation.{is_member};
ghost use Rattle.mm_database.specs.Together.{are_together_at};

use crate::database::Database;
use mm_outline::parts::Kind;
use mm_outline::symbol::Sym;
use std::alloc::Allocator;

/// The maximum number of statements that are examined. The `$d` of an assertion mostly stand right
/// before its hypotheses.
const MAX_STATEMENTS: u32 = 16;

/// The maximum number of symbols of a `$d` that is examined. Most have two or three.
const MAX_SYMBOLS: usize = 16;

/// Whether `formula` has the symbol. A result of false promises nothing.
#[inline(always)]
fn has_symbol(formula: &[Sym], symbol: Sym) -> bool
    ensures { result ≡ true → is_member formula.now symbol ≡ true }
{
    for other in formula {
        if other.number() == symbol.number() {
            return true;
        }
    }
    false
}

/// Whether some `$d` that is shortly before the statement, and active there, has both symbols. A
/// result of false promises nothing. The cost is bounded, whatever the text.
pub(crate) fn are_together_near<A: Allocator>(
    database: &Database<A>,
    statement: u32,
    x: Sym,
    y: Sym,
) -> bool
    requires { statement ≤ length database.now.statements }
    ensures { result ≡ true → are_together_at database.now.statements statement x y ≡ true }
{
    let earliest = statement.saturating_sub(MAX_STATEMENTS);
    let mut candidate = statement;
    while candidate > earliest {
        candidate -= 1;
        match database.kind(candidate) {
            Kind::Disjoint => {
                let formula = database.formula(candidate);
                if formula.len() <= MAX_SYMBOLS
                    && has_symbol(formula, x)
                    && has_symbol(formula, y)
                    && database.active_at(candidate, statement)
                {
                    return true;
                }
            }
            Kind::Open | Kind::Close => return false,
            _ => {}
        }
    }
    false
}
