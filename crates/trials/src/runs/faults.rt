//! Each fault with the line that is written for it (the examples of `docs/FAULTS.md`), and proofs
//! that come close to one.

use super::{NO_OPTIONS, assert_each_writes, writes};
use crate::examples::{Example, SCOPES, SHAPES, WORDS};
use crate::texts::{A1I_REPORT, A1I_UP_TO_PROOF, AFTER_PROOF, BASE, DETACHMENT, joined};
use std::alloc::{AllocError, Global};
use std::process::Abort;
use std::sync::Wait;
use std::thread::Threads;

/// Asserts that a run writes what each of the examples says.
fn assert_examples<R: Abort + Threads + Wait + Sync>(rt: &R, alloc: Global, examples: &[Example]) {
    for (row, (text, _, _, output)) in examples.iter().enumerate() {
        assert!(rt; writes(rt, alloc, NO_OPTIONS, text, output), "row {row}");
    }
}

#[test]
fn faults_of_words_and_statements(rt: HostRuntime) {
    assert_examples(&rt, rt.alloc(), &WORDS);
    assert_examples(&rt, rt.alloc(), &SHAPES);
    assert_examples(&rt, rt.alloc(), &SCOPES);
}

/// Statements with a faulty proof, and what is written for them. In the text `$c a $. ` stands before
/// them, so that the columns count 8 more than in the statements.
const FAULTS_OF_PROOFS: [(&[u8], &[u8]); 14] = [
    (b"t $p a $= $.", b"refused 1:19 E31\n"),
    (b"t $p a $= ? $.", b"refused 1:19 E32\n"),
    (b"t $p a $= u $.", b"refused 1:19 E33\n"),
    (b"b $a a $. t $p a $= ( b $.", b"refused 1:33 E41\n"),
    (b"b $a a $. t $p a $= ( b ) Aa $.", b"refused 1:36 E42\n"),
    (b"b $a a $. t $p a $= ( b ) AUZ $.", b"refused 1:37 E43\n"),
    (b"b $a a $. t $p a $= ( b ) ZA $.", b"refused 1:35 E44\n"),
    (b"b $a a $. t $p a $= ( b ) AUA $.", b"refused 1:36 E45\n"),
    (
        b"$v x $. fx $f a x $. b $a a x $. t $p a x $= b $.",
        b"refused 1:54 E34\n",
    ),
    (
        b"$c b $. $v x $. fx $f a x $. c $a b $. d $a a x $. t $p a $= c d $.",
        b"refused 1:72 E35\n",
    ),
    (
        b"$v x y $. fx $f a x $. fy $f a y $. ${ $d x y $. b $a a x y $. $} t $p a x x $= fx fx b $.",
        b"refused 1:95 E36\n",
    ),
    (
        b"$v x $. fx $f a x $. b $a a x x $. t $p a x $= fx b b b b b b b b b b b b b b b b b b b b $.",
        b"refused 1:97 E39\n",
    ),
    (b"b $a a $. t $p a $= b b $.", b"refused 1:33 E37\n"),
    (b"$c b $. c $a b $. t $p a $= c $.", b"refused 1:39 E38\n"),
];

#[test]
fn faults_of_proofs(rt: HostRuntime) {
    assert_each_writes(
        &rt,
        rt.alloc(),
        NO_OPTIONS,
        b"$c a $. ",
        &FAULTS_OF_PROOFS,
        b"",
    );
}

/// Proofs of `a1i`, which stand in line 8 from column 41 on (`A1I_UP_TO_PROOF`), and what is
/// written for them.
const PROOFS: [(&[u8], &[u8]); 31] = [
    (b"", b"refused 8:42 E31\n"),
    (b"?", b"refused 8:41 E32\n"),
    (b"a1i", b"refused 8:41 E33\n"),
    (b"wp h wq ?", b"refused 8:49 E32\n"),
    (b"wp unknown ?", b"refused 8:44 E33\n"),
    (b"ax-mp", b"refused 8:41 E34\n"),
    (b"wp wq wp wi h wp wp ax-1 ax-mp", b"refused 8:66 E35\n"),
    (b"wp wq wp wi h wp wq ax-1", b"refused 8:66 E37\n"),
    (b"wp wq ax-1 h", b"refused 8:54 E37\n"),
    (b"wp wq ax-1", b"refused 8:52 E38\n"),
    (b"wp wq wp wi h wp wq ax-1 ax-mp", A1I_REPORT),
    (b"( wi ax-1 ax-mp ) ABADCABEF", A1I_REPORT),
    (b"( wi ax-1 ax-mp ) ABADZCABEF", A1I_REPORT),
    (b"( wi ax-1 ax-mp ) ABADCA BEF", A1I_REPORT),
    (b"( wi ax-1 ax-mp ) ABADZZCABEF", A1I_REPORT),
    (
        b"( wi $( labels $) ax-1 ax-mp ) ABA $( steps $)\nDCABEF",
        A1I_REPORT,
    ),
    (b"( wp wi wi ax-1 ax-mp ) ABDECABGH", A1I_REPORT),
    (b"( wi ax-1 ax-mp )", b"refused 8:59 E31\n"),
    (b"( wi ax-1 ax-mp ) ABADCABE?", b"refused 8:67 E32\n"),
    (b"( wi ax-1 ax-mp ABADCABEF", b"refused 8:57 E33\n"),
    (b"( ? ) A", b"refused 8:43 E33\n"),
    (b"( wi ax-1 ax-mp ) F", b"refused 8:59 E34\n"),
    (b"( wi ax-1 ax-mp ) ABADCABF", b"refused 8:66 E35\n"),
    (b"( wi ax-1 ax-mp", b"refused 8:57 E41\n"),
    (b"( wi ax-1 ax-mp ) ABADCAbEF", b"refused 8:65 E42\n"),
    (
        b"( wi ax-1 ax-mp ) YYYYYYYYYYYYYYYYb",
        b"refused 8:75 E42\n",
    ),
    (b"( wi ax-1 ax-mp ) ABADCABEU", b"refused 8:69 E43\n"),
    (b"( wi ax-1 ax-mp ) ABADUZCABEF", b"refused 8:64 E43\n"),
    (b"( wi ax-1 ax-mp ) ZABADCABEF", b"refused 8:59 E44\n"),
    (b"( wi ax-1 ax-mp ) ABADCABEG", b"refused 8:67 E45\n"),
    (
        b"( wi ax-1 ax-mp ) AYYYYYYYYYYYYYYYYYYYYYYYYYYYYYYYYA",
        b"refused 8:60 E45\n",
    ),
];

#[test]
fn proofs_of_one_theorem(rt: HostRuntime) -> Result<(), AllocError> {
    let before = joined(rt.alloc(), &[BASE, DETACHMENT, A1I_UP_TO_PROOF])?;
    assert_each_writes(&rt, rt.alloc(), NO_OPTIONS, &before, &PROOFS, AFTER_PROOF);
    Ok(())
}

/// Statements at the end of a text. The bad byte stands in the second row before the end of the
/// proof, and in the third after the faulty statement. The k-th marked formula of `big` has
/// 2^(k+2) - 2 symbols. The last two compare formulas of 2^13 symbols that were made apart: equal
/// ones, so that the proof fails at its end, and others.
const STATEMENTS: [(&[u8], &[u8]); 14] = [
    (
        b"wi2 $p wff ( p -> ( q -> p ) ) $= wp wq wp wi $.\n",
        b"refused 7:47 E37\n",
    ),
    (
        b"wi2 $p wff ( p -> ( q -> p ) ) $= wp wq wp w\x80 $.\n",
        b"refused 7:45 E01\n",
    ),
    (
        b"wi2 $p wff ( p -> ( q -> p ) ) $= wp wq wp wi $.\n\x80\n",
        b"refused 7:47 E37\n",
    ),
    (
        b"wi2 $p wff ( p -> ( q -> p ) ) $= wp wp wq wp wi wi $.\n",
        b"refused 7:53 E37\n",
    ),
    (
        b"wi2 $p wff ( p -> ( q -> p ) ) $= wp wq wi $.\n",
        b"refused 7:44 E38\n",
    ),
    (
        b"${ $d p q $. ax-d $a |- ( p -> q ) $. $}\nbad $p |- ( p -> q ) $= wp wq ax-d $.\n",
        b"refused 8:31 E36\n",
    ),
    (
        b"${ $d p q $. ax-d $a |- ( p -> q ) $. $}\n${ $d p q $. bad $p |- ( p -> p ) $= wp wp ax-d $. $}\n",
        b"refused 8:44 E36\n",
    ),
    (
        b"${ $d p q $. ax-d $a |- ( p -> q ) $. $}\n${ $d p q $. good $p |- ( p -> q ) $= wp wq ax-d $. $}\n",
        b"mmdepend 1\naxioms 3\ntheorems 1\nmatrix\ngood:001\ncounts\ngood:1\nusage\nwi:0:\nax-1:0:\nax-d:1:good\nend\n",
    ),
    (
        b"${ h $e |- p $. $}\nt $p |- p $= h $.\n",
        b"refused 8:14 E33\n",
    ),
    (
        b"big $p wff p $= ( wi ) AABZCBZDBZEBZFBZGBZHBZIBZJBZKBZLBZMBZNBZOBZPBZQBZRBZSBZTBZ $.\n",
        b"refused 7:80 E39\n",
    ),
    (
        b"big $p wff p $= ( wi ) AABZCBZDBZEBZFBZGBZHBZIBZJBZKBZLBZMBZNBZOBZPBZQBZRBZSBZ $.\n",
        b"refused 7:80 E38\n",
    ),
    (
        b"long $p wff p $= wp wq wp wi wp wi wp wi wp wi $.\nshort $p wff p $= wq $.\n",
        b"refused 7:48 E37\n",
    ),
    (
        b"dd $a wff p p $.\nax $a |- p $.\n${ e $e |- p $. id $a |- p $. $}\nt $p wff p $= ( dd ax id ) ABBBBBBBBBBBBBZABBBBBBBBBBBBBZFCZEGD $.\n",
        b"refused 10:65 E37\n",
    ),
    (
        b"dd $a wff p p $.\nax $a |- p $.\n${ e $e |- p $. id $a |- p $. $}\nt $p wff p $= ( dd ax id wq ) ABBBBBBBBBBBBBZEBBBBBBBBBBBBBZGCZFHD $.\n",
        b"refused 10:66 E35\n",
    ),
];

#[test]
fn faults_of_whole_texts(rt: HostRuntime) {
    assert_each_writes(&rt, rt.alloc(), NO_OPTIONS, BASE, &STATEMENTS, b"");
}

/// Symbols, and statements that the theorems in `STEPS` cite.
const HEAD: &[u8] = b"$c ( ) -> A. = wff set |- $. $v p q x $.
wp $f wff p $. wq $f wff q $. vx $f set x $.
wi $a wff ( p -> q ) $. we $a wff x = x $. ax $a |- p $.
${ mi $e |- p $. ma $e |- ( p -> q ) $. mp $a |- q $. $}
${ $d x p $. al $a wff A. x p $. $}
twice $a wff p p $. more $a wff p p ( $.
";

/// The counts of a text with these statements and a valid theorem that cites one of them.
const ONE_CITED: &[u8] = b"mmdepend 1\naxioms 7\ntheorems 1\ncounts\nt:1\nend\n";

/// Theorems after the statements of `HEAD`. From 1 symbol after the typecode, `more` makes 2 n + 1
/// of n, so 19 of them make 1,048,575, which is the limit without the typecode.
const STEPS: [(&[u8], &[u8]); 14] = [
    (b"t $p wff ( p -> q ) $= wp wq wi $.", ONE_CITED),
    (
        b"t $p wff ( p -> q ) $= wp wq wi wp $.",
        b"refused 7:36 E37\n",
    ),
    (b"t $p wff ( p -> q ) $= wp wi $.", b"refused 7:27 E34\n"),
    (b"t $p wff ( p -> q ) $= vx wq wi $.", b"refused 7:30 E35\n"),
    (b"t $p wff ( p -> q ) $= wq wp wi $.", b"refused 7:33 E38\n"),
    (
        b"a $e |- p $. b $e |- ( p -> q ) $. t $p |- q $= wp wq a b mp $.",
        ONE_CITED,
    ),
    (
        b"a $e |- p $. b $e |- ( q -> q ) $. t $p |- q $= wp wq a b mp $.",
        b"refused 7:59 E35\n",
    ),
    (b"$d x p $. t $p wff A. x p $= wp vx al $.", ONE_CITED),
    (b"t $p wff A. x p $= wp vx al $.", b"refused 7:26 E36\n"),
    (
        b"t $p wff A. x x = x $= vx we vx al $.",
        b"refused 7:33 E36\n",
    ),
    (
        b"t $p wff p $= wp more more more more more more more more more more more more more more more more more more more $.",
        b"refused 7:113 E38\n",
    ),
    (
        b"t $p wff p $= wp twice twice twice twice twice twice twice twice twice twice twice twice twice twice twice twice twice twice twice twice $.",
        b"refused 7:132 E39\n",
    ),
    (
        b"t $p wff ( ( p -> q ) -> ( q -> ( p -> p ) ) ) $= wp wq wi wq wp wp wi wi wi $.",
        ONE_CITED,
    ),
    (
        b"a $e |- p $. b $e |- ( p -> q ) $. c $e |- ( q -> p ) $. t $p |- p $= wq wp wp wq a b mp c mp $.",
        ONE_CITED,
    ),
];

#[test]
fn steps_and_their_entries(rt: HostRuntime) {
    let counts = ["mmdepend", "--report", "counts"];
    assert_each_writes(&rt, rt.alloc(), &counts, HEAD, &STEPS, b"\n");
}
