//! The calls that start no thread, by which a text in memory is judged and its outputs are written.

ghost use Rattle.std.specs.Prelude.{IfSome, false};
ghost use Rattle.mm_run.specs.Judging.{IsJudgedText};

use super::proofs::are_cited;
use super::{MOST_GROWTHS, WITHOUT_OPEN, was_refused};
use crate::calls::BY_ALL_NODES;
use crate::heap::Refusing;
use crate::texts::{CITED_TWICE, CITED_TWICE_REPORT, CITED_TWICE_STATEMENTS};
use mm_run::{JudgedText, RunEnd, judge_alone, write_judged};
use mm_spec::{Request, Sections, TEXT_LIMIT};
use std::alloc::{Allocator, Global};
use std::process::Abort;

/// How many growths writing an output of a judged text has at least, whichever sections it has.
const LEAST_OF_WRITING: u64 = 1;

/// What judging a text comes to. `None` if the text is too long or there is no memory.
pub(crate) fn judged<'a, A: Allocator + Copy>(alloc: A, text: &'a [u8]) -> Option<JudgedText<'a, A>>
    ensures { IfSome result (IsJudgedText text.now false false) }
{
    if text.len() > TEXT_LIMIT {
        return None;
    }
    judge_alone(alloc, text, BY_ALL_NODES, WITHOUT_OPEN).ok()
}

/// Whether this is what judging the text with two theorems comes to.
pub(crate) fn is_sound<A: Allocator>(answer: Option<JudgedText<'_, A>>) -> Option<bool> {
    match answer? {
        JudgedText::Sound(database, citations) => {
            Some(database.text() == CITED_TWICE && are_cited(&citations))
        },
        JudgedText::Faulty(_) => Some(false),
    }
}

/// The report on what the two theorems rest on, without its columns.
const MATRIX: &[u8] = b"mmdepend 1\naxioms 3\ntheorems 2\nmatrix\na1i:111\na2:111\nend\n";

/// The report on what the two theorems cite.
const CITATIONS: &[u8] =
    b"mmdepend 1\naxioms 3\ntheorems 2\ncitations\na1i:3:wi ax-1 ax-mp\na2:2:wi a1i\nend\n";

/// The usage, and what the two theorems cite.
const USAGE_AND_CITATIONS: &[u8] =
    b"mmdepend 1\naxioms 3\ntheorems 2\nusage\nwi:2:a1i a2\nax-1:2:a1i a2\nax-mp:2:a1i a2\ncitations\na1i:3:wi ax-1 ax-mp\na2:2:wi a1i\nend\n";

/// Whether exactly this output is written for the sections of a judged text. `None` if there is no
/// memory and nothing was written.
fn is_written<'a, A: Allocator + Copy>(
    alloc: A,
    memory: Global,
    text: &[u8],
    judged: &JudgedText<'a, A>,
    sections: Sections,
    output: &[u8],
) -> Option<bool>
    requires { IsJudgedText text.now false false judged.now }
{
    let mut request = Request::without_options();
    request.sections = sections;
    let mut written = Vec::new(memory);
    match write_judged(alloc, text, &request, judged, &mut written) {
        RunEnd::Accepted => Some(written.as_slice() == output),
        RunEnd::NoMemory if written.is_empty() => None,
        _ => Some(false),
    }
}

/// Refuses each growth of writing an output of a judged text in turn.
fn written_in_turn<'h, R: Abort>(
    rt: &R,
    heap: &'h Refusing<Global>,
    memory: Global,
    text: &[u8],
    judged: &JudgedText<'_, &'h Refusing<Global>>,
    sections: Sections,
    output: &[u8],
) -> bool
    requires { IsJudgedText text.now false false judged.now }
{
    for growth in 1..MOST_GROWTHS {
        heap.refuse(growth);
        let is_right = is_written(heap, memory, text, judged, sections, output);
        let refused = was_refused(rt, heap, is_right);
        let is_right_again = is_written(heap, memory, text, judged, sections, output);
        assert!(rt; is_right_again == Some(true));
        if !refused {
            return growth > LEAST_OF_WRITING;
        }
    }
    false
}

/// The report of the steps of their proofs.
const PROOFS: &[u8] =
    b"mmdepend 1\naxioms 3\ntheorems 2\nproofs\na1i:9:wp wq wp wi h wp wq ax-1 ax-mp\na2:9:wq wp wi wq wp wq g a1i a1i\nend\n";

/// Sections, by whether the matrix, the counts, the usage, the citations, the proofs and the
/// statements are among them, and what is written for them.
const OUTPUTS: [(bool, bool, bool, bool, bool, bool, &[u8]); 6] = [
    (true, true, true, false, false, false, CITED_TWICE_REPORT),
    (true, false, false, false, false, false, MATRIX),
    (false, false, false, true, false, false, CITATIONS),
    (false, false, true, true, false, false, USAGE_AND_CITATIONS),
    (false, false, false, false, true, false, PROOFS),
    (
        false,
        false,
        false,
        false,
        false,
        true,
        CITED_TWICE_STATEMENTS,
    ),
];

/// Refuses each growth of writing each output in turn.
fn assert_outputs_right<'h, R: Abort>(
    rt: &R,
    heap: &'h Refusing<Global>,
    memory: Global,
    text: &[u8],
    judged: &JudgedText<'_, &'h Refusing<Global>>,
)
    requires { IsJudgedText text.now false false judged.now }
{
    for (matrix, counts, usage, citations, proofs, statements, output) in OUTPUTS {
        let sections = Sections {
            matrix,
            counts,
            usage,
            citations,
            proofs,
            statements,
        };
        assert!(rt; written_in_turn(rt, heap, memory, text, judged, sections, output));
    }
}

#[test]
fn outputs_of_a_judged_text_written_without_memory(rt: HostRuntime) {
    let heap = Refusing::new(rt.alloc());
    match judged(&heap, CITED_TWICE) {
        Some(judged) => assert_outputs_right(&rt, &heap, rt.alloc(), CITED_TWICE, &judged),
        None => assert!(&rt; false),
    }
}
