//! What is written of two texts that were judged.

ghost use Rattle.std.specs.Prelude.{◌≡◌, Bool, List, ℕ, length, false, true};
ghost use Rattle.mm_spec.specs.Request.{Request as SpecRequest};
ghost use Rattle.mm_spec.specs.Lexed.{lexed_of};
ghost use Rattle.mm_spec.specs.Output.{FirstFault, theorems};
ghost use Rattle.mm_spec.specs.ComparisonEnds.{IsSound, WroteComparison};
ghost use Rattle.mm_shifts.specs.Resting.{IsMarked, Resting, side_in};
ghost use Rattle.mm_run.specs.Judging.{IsFaultless, IsJudgedText};
ghost use Rattle.mm_against.specs.Answered.{WroteAnswer};
ghost use Rattle.mm_against.specs.Found.{AreItsCitations};
ghost use Rattle.mm_against.specs.Written.{WroteDifferences};

use crate::found::find_differences;
use crate::table::{Table, table_of};
use crate::write::write_found;
use mm_database::Database;
use mm_report::{Request, write_refusal_after};
use mm_run::{JudgedText, prepare, write_prepared};
use mm_shifts::Marked;
use mm_spec::{ComparisonEnd, Fault};
use mm_work::Citations;
use std::alloc::Allocator;
use std::io::Write;

/// Writes the refusal of OLD for its first fault.
pub(crate) fn refuse_old<W: Write>(text: &[u8], fault: Fault, to: &mut W) -> ComparisonEnd
    ensures { (and_report : Bool) → (new : List ℕ) → (request : SpecRequest)
        → FirstFault (length text.now) (lexed_of text.now) request.with_open fault
        → WroteAnswer and_report result text.now new request (W.contents to.old)
        (W.contents to.new) }
{
    match write_refusal_after(to, b"old ", text, &fault) {
        Ok(()) => ComparisonEnd::OldRefused(fault),
        Err(_) => ComparisonEnd::WriteFailed,
    }
}

/// Writes the refusal of NEW for its first fault, where OLD has none.
fn refuse_new<W: Write>(text: &[u8], fault: Fault, to: &mut W) -> ComparisonEnd
    ensures { (and_report : Bool) → (old : List ℕ) → (request : SpecRequest) → IsSound old request
        → FirstFault (length text.now) (lexed_of text.now) request.with_open fault
        → WroteAnswer and_report result old text.now request (W.contents to.old)
        (W.contents to.new) }
{
    match write_refusal_after(to, b"new ", text, &fault) {
        Ok(()) => ComparisonEnd::NewRefused(fault),
        Err(_) => ComparisonEnd::WriteFailed,
    }
}

/// Finds and writes the differences between two databases with their marks.
fn compare_marked<'s, 'a, A: Allocator + Copy, W: Write>(
    alloc: A,
    request: &Request<'_>,
    old: &'s Marked<'s, 'a, A, A>,
    new: &'s Marked<'s, 'a, A, A>,
    to: &mut W,
) -> ComparisonEnd
    requires old_citations { AreItsCitations request.now.essential old.now }
    requires new_citations { AreItsCitations request.now.essential new.now }
    ensures { WroteDifferences result request.now (side_in old.now) (side_in new.now)
        (W.contents to.old) (W.contents to.new) }
{
    let Ok(gone) = find_differences(alloc, old, request.only, new) else {
        return ComparisonEnd::NoMemory;
    };
    let Ok(added) = find_differences(alloc, new, request.only, old) else {
        return ComparisonEnd::NoMemory;
    };
    match write_found(to, request, old, &gone, new, &added) {
        Ok(()) => ComparisonEnd::Compared,
        Err(_) => ComparisonEnd::WriteFailed,
    }
}

/// Writes the differences between two databases, by their citations and the marks of both.
fn compare_tables<'s, 'a, A: Allocator + Copy, W: Write>(
    alloc: A,
    request: &Request<'_>,
    old: (&'s Database<'a, A>, &'s Citations<A>, &'s Table<A>),
    new: (&'s Database<'a, A>, &'s Citations<A>, &'s Table<A>),
    to: &mut W,
) -> ComparisonEnd
    requires old_is_faultless { IsFaultless request.now.essential request.now.with_open old.0.now
        old.1.now }
    requires new_is_faultless { IsFaultless request.now.essential request.now.with_open new.0.now
        new.1.now }
    requires old_is_marked { IsMarked old.0.now old.1.now old.2.now.axioms old.2.now.marks }
    requires new_is_marked { IsMarked new.0.now new.1.now new.2.now.axioms new.2.now.marks }
    ensures { WroteComparison result old.entry.0.now.text new.entry.0.now.text request.now
        (W.contents to.old) (W.contents to.new) }
{
    let (old_database, old_citations, old_table) = old;
    let (new_database, new_citations, new_table) = new;
    let Ok(old_marked) = Marked::new(
        alloc,
        old_database,
        old_citations,
        &old_table.axioms,
        &old_table.marks,
    ) else {
        return ComparisonEnd::NoMemory;
    };
    let Ok(new_marked) = Marked::new(
        alloc,
        new_database,
        new_citations,
        &new_table.axioms,
        &new_table.marks,
    ) else {
        return ComparisonEnd::NoMemory;
    };
    compare_marked(alloc, request, &old_marked, &new_marked, to)
}

/// Writes the differences between two databases without a fault.
fn compare<'a, A: Allocator + Copy, W: Write>(
    alloc: A,
    request: &Request<'_>,
    old_database: &Database<'a, A>,
    old_citations: &Citations<A>,
    new_database: &Database<'a, A>,
    new_citations: &Citations<A>,
    to: &mut W,
) -> ComparisonEnd
    requires old_is_faultless { IsFaultless request.now.essential request.now.with_open
        old_database.now old_citations.now }
    requires new_is_faultless { IsFaultless request.now.essential request.now.with_open
        new_database.now new_citations.now }
    ensures { WroteComparison result old_database.now.text new_database.now.text request.now
        (W.contents to.old) (W.contents to.new) }
{
    let Ok(old_table) = table_of(alloc, old_database, old_citations) else {
        return ComparisonEnd::NoMemory;
    };
    let Ok(new_table) = table_of(alloc, new_database, new_citations) else {
        return ComparisonEnd::NoMemory;
    };
    compare_tables(
        alloc,
        request,
        (old_database, old_citations, &old_table),
        (new_database, new_citations, &new_table),
        to,
    )
}

/// Writes the differences between two databases without a fault, and behind them the report on the
/// new one. All that this takes memory for is made before the first byte is written.
fn compare_and_report<'a, A: Allocator + Copy, W: Write>(
    alloc: A,
    request: &Request<'_>,
    old_database: &Database<'a, A>,
    old_citations: &Citations<A>,
    new_database: &Database<'a, A>,
    new_citations: &Citations<A>,
    to: &mut W,
) -> ComparisonEnd
    requires old_is_faultless { IsFaultless request.now.essential request.now.with_open
        old_database.now old_citations.now }
    requires new_is_faultless { IsFaultless request.now.essential request.now.with_open
        new_database.now new_citations.now }
    ensures { WroteAnswer true result old_database.now.text new_database.now.text request.now
        (W.contents to.old) (W.contents to.new) }
{
    let Ok(prepared) = prepare(alloc, request, new_database, new_citations) else {
        return ComparisonEnd::NoMemory;
    };
    match compare(
        alloc,
        request,
        old_database,
        old_citations,
        new_database,
        new_citations,
        to,
    ) {
        ComparisonEnd::Compared => {
            match write_prepared(to, request, new_database, new_citations, &prepared) {
                Ok(()) => ComparisonEnd::Compared,
                Err(_) => ComparisonEnd::WriteFailed,
            }
        }
        end => end,
    }
}

/// Writes the differences between two databases without a fault, and if `and_report`, behind them
/// the report on the new one.
fn answer_sound<'a, A: Allocator + Copy, W: Write>(
    alloc: A,
    request: &Request<'_>,
    and_report: bool,
    old: (&Database<'a, A>, &Citations<A>),
    new: (&Database<'a, A>, &Citations<A>),
    to: &mut W,
) -> ComparisonEnd
    requires old_is_faultless { IsFaultless request.now.essential request.now.with_open old.0.now
        old.1.now }
    requires new_is_faultless { IsFaultless request.now.essential request.now.with_open new.0.now
        new.1.now }
    ensures { WroteAnswer and_report result old.entry.0.now.text new.entry.0.now.text request.now
        (W.contents to.old) (W.contents to.new) }
{
    if and_report {
        compare_and_report(alloc, request, old.0, old.1, new.0, new.1, to)
    } else {
        compare(alloc, request, old.0, old.1, new.0, new.1, to)
    }
}

/// Writes what was asked of two texts, OLD and NEW, that were judged: the refusal of OLD for its
/// first fault; or if it has none, that of NEW; or if neither has a fault, their differences, and if
/// `and_report`, behind them the report on NEW. The request has the flags `essential` and
/// `with_open` with which both were judged.
pub(crate) fn write_answer<'a, A: Allocator + Copy, W: Write>(
    alloc: A,
    request: &Request<'_>,
    and_report: bool,
    old_text: &[u8],
    old: &JudgedText<'a, A>,
    new_text: &[u8],
    new: &JudgedText<'a, A>,
    to: &mut W,
) -> ComparisonEnd
    requires old_is_judged { IsJudgedText old_text.now request.now.essential request.now.with_open
        old.now }
    requires new_is_judged { IsJudgedText new_text.now request.now.essential request.now.with_open
        new.now }
    ensures { WroteAnswer and_report result old_text.now new_text.now request.now (W.contents to.old)
        (W.contents to.new) }
{
    match old {
        JudgedText::Faulty(fault) => refuse_old(old_text, *fault, to),
        JudgedText::Sound(old_database, old_citations) => match new {
            JudgedText::Faulty(fault) => refuse_new(new_text, *fault, to),
            JudgedText::Sound(new_database, new_citations) => answer_sound(
                alloc,
                request,
                and_report,
                (old_database, old_citations),
                (new_database, new_citations),
                to,
            ),
        },
    }
}

/// Writes what was asked of two texts, OLD and NEW, that were judged: the refusal of OLD for its
/// first fault; or if it has none, that of NEW; or if neither has a fault, their differences. The
/// request has the flags `essential` and `with_open` with which both were judged; its sections and
/// its form are not used.
pub fn write_comparison<'a, A: Allocator + Copy, W: Write>(
    alloc: A,
    request: &Request<'_>,
    old_text: &[u8],
    old: &JudgedText<'a, A>,
    new_text: &[u8],
    new: &JudgedText<'a, A>,
    to: &mut W,
) -> ComparisonEnd
    requires old_is_judged { IsJudgedText old_text.now request.now.essential request.now.with_open
        old.now }
    requires new_is_judged { IsJudgedText new_text.now request.now.essential request.now.with_open
        new.now }
    ensures { WroteComparison result old_text.now new_text.now request.now (W.contents to.old)
        (W.contents to.new) }
{
    write_answer(alloc, request, false, old_text, old, new_text, new, to)
}
