//! What a proof cites: the assertions of all its nodes, or those of its essential nodes alone.

use crate::databases::database_of;
use crate::flags::{BY_ALL_NODES, BY_ESSENTIAL_NODES, WITHOUT_OPEN};
use crate::texts::{
    A1I_PROOF, A1I_UP_TO_PROOF, AFTER_PROOF, BASE, DETACHMENT, FIRST_TEXT, THROUGH_THEOREM, joined,
};
use mm_check::check;
use mm_proof::read_proof;
use mm_stmt::Database;
use std::alloc::{AllocError, Global};
use std::thread::Threads;

/// A rule whose `$e` has the form of a `$f`, so that one step can be the premise for either.
const WEAK: &[u8] = b"${ e1 $e wff p $. ax-w $a wff p $. $}\n";

/// Whether the statements are those of the labels.
fn are_labelled(database: &Database<Global>, statements: &[u32], labels: &[&[u8]]) -> bool {
    if statements.len() != labels.len() {
        return false;
    }
    for (statement, label) in statements.iter().zip(labels) {
        if database.find(label) != Some(*statement) {
            return false;
        }
    }
    true
}

/// Whether the proof of the last theorem is valid and cites exactly the assertions with these
/// labels.
fn does_last_cite(
    alloc: Global,
    database: &Database<Global>,
    essential: bool,
    labels: &[&[u8]],
) -> bool {
    let theorems = database.theorems();
    if theorems.is_empty() {
        return false;
    }
    let theorem = theorems[theorems.len() - 1];
    let Ok(steps) = read_proof(alloc, database, theorem) else {
        return false;
    };
    match check(alloc, database, theorem, &steps, essential) {
        Ok(checked) => are_labelled(database, checked.cites(), labels),
        Err(_) => false,
    }
}

/// Whether the proof of a text's last theorem is so.
fn is_cited<R: Threads + Sync>(
    rt: &R,
    alloc: Global,
    text: Result<Vec<u8>, AllocError>,
    essential: bool,
    labels: &[&[u8]],
) -> Result<bool, AllocError> {
    let text = text?;
    let database = database_of(rt, alloc, &text, WITHOUT_OPEN)?;
    Ok(does_last_cite(alloc, &database, essential, labels))
}

/// Proofs of `a1i`.
const A1I_PROOFS: [&[u8]; 3] = [
    b"wp wq wp wi h wp wq ax-1 ax-mp",
    b"( wi ax-1 ax-mp ) ABADCABEF",
    b"( wi ax-1 ax-mp ) ABADZCABEF",
];

/// The same of the text that these parts make.
fn does_proof_cite<R: Threads + Sync>(
    rt: &R,
    alloc: Global,
    parts: &[&[u8]],
    essential: bool,
    labels: &[&[u8]],
) -> bool {
    is_cited(rt, alloc, joined(alloc, parts), essential, labels).unwrap_or(false)
}

#[test]
fn formulas_are_not_essential(rt: HostRuntime) {
    let alloc = rt.alloc();
    for (row, proof) in A1I_PROOFS.iter().enumerate() {
        let parts = [BASE, DETACHMENT, A1I_UP_TO_PROOF, *proof, AFTER_PROOF];
        let all: [&[u8]; 3] = [b"wi", b"ax-1", b"ax-mp"];
        let is_right = does_proof_cite(&rt, alloc, &parts, BY_ALL_NODES, &all)
            && does_proof_cite(&rt, alloc, &parts, BY_ESSENTIAL_NODES, &[b"ax-1", b"ax-mp"]);
        assert!(&rt; is_right, "proof {row}");
    }
}

/// The parts of a text with a theorem that cites the theorem before it.
const THROUGH: [&[u8]; 6] = [
    BASE,
    DETACHMENT,
    A1I_UP_TO_PROOF,
    A1I_PROOF,
    AFTER_PROOF,
    THROUGH_THEOREM,
];

/// Parts of texts, whether essential nodes count alone, and what the last theorem then cites.
const ROOTS: [(&[&[u8]], bool, &[&[u8]]); 4] = [
    (&THROUGH, BY_ALL_NODES, &[b"wi", b"a1i"]),
    (&THROUGH, BY_ESSENTIAL_NODES, &[b"a1i"]),
    (&[FIRST_TEXT], BY_ALL_NODES, &[b"wi"]),
    (&[FIRST_TEXT], BY_ESSENTIAL_NODES, &[b"wi"]),
];

#[test]
fn theorems_and_roots_are_essential(rt: HostRuntime) {
    for (row, (parts, essential, labels)) in ROOTS.iter().enumerate() {
        let is_right = does_proof_cite(&rt, rt.alloc(), parts, *essential, labels);
        assert!(&rt; is_right, "row {row}");
    }
}

/// Proofs of a formula by `ax-w`, whose premise is a marked step.
const WEAK_PROOFS: [&[u8]; 4] = [
    b"( wi ax-w ) ABCZED",
    b"( wi ax-w ) ABCABCD",
    b"( wi ax-w ) ABCZEDZFD",
    b"( wi ax-w ) ABCABCZDEEDD",
];

#[test]
fn marked_steps_are_essential_by_any_use(rt: HostRuntime) {
    for (row, proof) in WEAK_PROOFS.iter().enumerate() {
        let parts: [&[u8]; 5] = [BASE, WEAK, b"s $p wff ( p -> q ) $= ", *proof, b" $.\n"];
        let labels: [&[u8]; 2] = [b"wi", b"ax-w"];
        let is_right = does_proof_cite(&rt, rt.alloc(), &parts, BY_ESSENTIAL_NODES, &labels);
        assert!(&rt; is_right, "proof {row}");
    }
}
