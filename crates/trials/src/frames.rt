//! Frames and rules that are made in stretches of statements, the frames beside those of a plain
//! loop.

ghost use Rattle.std.specs.Prelude.{◌<◌, length};
ghost use Rattle.mm_rules.specs.Rules.{AreRules};

use crate::flags::WITHOUT_OPEN;
use mm_lex::{Cuts, lex};
use mm_rule::is_assertion;
use mm_rules::{Rules, rules_of};
use mm_spec::TEXT_LIMIT;
use mm_stmt::{Database, Kind, Sym, read_owned};
use std::alloc::{AllocError, Global};
use std::rt::HostRuntime;
use std::thread::Threads;

/// Blocks in blocks, and a variable that has a `$f` in two of them. There are six symbols, so no
/// stretch has fewer than six statements.
const TEXT: &[u8] = b"$c wff |- $. $v p q r s $. wp $f wff p $. wq $f wff q $. a $a wff p $. \
${ wr $f wff r $. $d p q r $. e1 $e |- q $. b $a |- r $. \
${ ws $f wff s $. $d p s $. $d q s $. e2 $e |- s $. c $a |- p $. $} d $a |- p $. $} \
e $a |- q $. \
${ xs $f wff s $. $d s p q $. f $a |- s $. e3 $e |- p $. g $a |- s $. t $p |- s $= ? $. $} \
h $a |- p $.";

/// Whether a formula has the symbol.
fn has_symbol(formula: &[Sym], symbol: Sym) -> bool {
    for other in formula {
        if other.number() == symbol.number() {
            return true;
        }
    }
    false
}

/// Whether the symbol is in the assertion's formula, or in that of an active `$e`.
fn is_mandatory(database: &Database<Global>, assertion: u32, symbol: Sym) -> bool
    requires { assertion < length database.now.statements }
{
    for statement in 0..assertion {
        if database.kind(statement) == Kind::Essential
            && database.active_at(statement, assertion)
            && has_symbol(database.formula(statement), symbol)
        {
            return true;
        }
    }
    has_symbol(database.formula(assertion), symbol)
}

/// Whether a statement, if it is active, is a mandatory hypothesis of the assertion.
fn is_hypothesis(database: &Database<Global>, assertion: u32, statement: u32) -> bool
    requires assertion_is_known { assertion < length database.now.statements }
    requires statement_is_known { statement < length database.now.statements }
{
    match database.kind(statement) {
        Kind::Essential => true,
        Kind::Floating => match database.formula(statement).get(1) {
            Some(variable) => is_mandatory(database, assertion, *variable),
            None => false,
        },
        _ => false,
    }
}

/// Whether the mandatory hypotheses of the assertion are these.
fn are_hypotheses(database: &Database<Global>, assertion: u32, hypotheses: &[u32]) -> bool
    requires { assertion < length database.now.statements }
{
    let mut expected = hypotheses.iter();
    for statement in 0..assertion {
        let may_be_listed = is_hypothesis(database, assertion, statement);
        let is_active = database.active_at(statement, assertion);
        if may_be_listed && is_active {
            match expected.next() {
                Some(hypothesis) if *hypothesis == statement => {}
                _ => return false,
            }
        }
    }
    expected.next().is_none()
}

/// Whether an active `$d` of the assertion has both symbols.
fn are_together(database: &Database<Global>, assertion: u32, low: Sym, high: Sym) -> bool
    requires { assertion < length database.now.statements }
{
    for statement in 0..assertion {
        if database.kind(statement) == Kind::Disjoint
            && database.active_at(statement, assertion)
            && has_symbol(database.formula(statement), low)
            && has_symbol(database.formula(statement), high)
        {
            return true;
        }
    }
    false
}

/// Whether the mandatory pairs of the assertion are these.
fn are_pairs(database: &Database<Global>, assertion: u32, pairs: &[(Sym, Sym)]) -> bool
    requires { assertion < length database.now.statements }
{
    let mut expected = pairs.iter();
    for low in 0..database.symbol_count() {
        for high in low + 1..database.symbol_count() {
            if is_mandatory(database, assertion, Sym::new(low))
                && is_mandatory(database, assertion, Sym::new(high))
                && are_together(database, assertion, Sym::new(low), Sym::new(high))
            {
                match expected.next() {
                    Some(pair) if pair.0.number() == low && pair.1.number() == high => {}
                    _ => return false,
                }
            }
        }
    }
    expected.next().is_none()
}

/// Whether the frame of each assertion is that of the plain loop.
fn has_plain_frames(database: &Database<Global>) -> bool {
    for assertion in 0..database.len() {
        if is_assertion(database, assertion) {
            let frame = database.frame(assertion);
            if !are_hypotheses(database, assertion, &frame.hyps)
                || !are_pairs(database, assertion, &frame.pairs)
            {
                return false;
            }
        }
    }
    true
}

/// Whether there is a rule of each assertion, as long as its frame and its formula.
fn has_each_rule(database: &Database<Global>, rules: &Rules<Global>) -> bool
    requires { AreRules database.now.statements rules.now }
{
    for assertion in 0..database.len() {
        if is_assertion(database, assertion) {
            let Some(index) = rules.find(assertion) else {
                return false;
            };
            let rule = rules.rule(database, index);
            if rule.hypotheses().len() != database.frame(assertion).hyps.len()
                || rule.formula().len() != database.formula(assertion).len()
            {
                return false;
            }
        }
    }
    true
}

/// Whether the frames of a text are those of the plain loop, and there is each rule, if that many
/// workers make them. Fails if the text is too long, too.
fn are_plain_by<R: Threads + Sync>(
    rt: &R,
    alloc: Global,
    text: &[u8],
    workers: u32,
) -> Result<bool, AllocError> {
    if text.len() > TEXT_LIMIT {
        return Err(AllocError);
    }
    let cuts = Cuts::equal(alloc, text.len(), 1)?;
    let lexed = lex(rt, alloc, text, &cuts)?;
    let database = read_owned(rt, alloc, text, lexed, WITHOUT_OPEN, workers.max(1))?;
    let rules = rules_of(rt, alloc, &database, workers.max(1))?;
    Ok(has_plain_frames(&database) && has_each_rule(&database, &rules))
}

/// The text up to the end of each statement has one statement more. So the stretches have every
/// length from six statements on, and end in each statement.
#[test]
fn frames_and_rules_of_each_beginning_by_any_workers(rt: HostRuntime) {
    for end in 0..TEXT.len() {
        if TEXT[end] == b'.' || TEXT[end] == b'{' || TEXT[end] == b'}' {
            for workers in [1u32, 2, 3, 64] {
                let is_right = are_plain_by(&rt, rt.alloc(), &TEXT[..end + 1], workers);
                assert!(&rt;
                    is_right.unwrap_or(false),
                    "up to {end} by {workers} workers"
                );
            }
        }
    }
}
