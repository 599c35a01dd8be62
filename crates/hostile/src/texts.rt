//! Texts that several tests read, and what a run writes for them.

/// Symbols and formulas of a conditional, its first axiom, and a theorem that rests on one of the
/// two axioms.
pub(crate) const FIRST_TEXT: &[u8] =
    b"$c wff |- ( -> ) $.\n$v p q $.\nwp $f wff p $.\nwq $f wff q $.\nwi $a wff ( p -> q ) $.\nax-1 $a |- ( p -> ( q -> p ) ) $.\nwi2 $p wff ( p -> ( q -> p ) ) $= wp wq wp wi wi $.\n";

/// The report for that text.
pub(crate) const FIRST_REPORT: &[u8] =
    b"mmdepend 1\naxioms 2\ntheorems 1\nmatrix\nwi2:10\ncounts\nwi2:1\nusage\nwi:1:wi2\nax-1:0:\nend\n";

/// The beginning of the first text, up to its first axiom: 118 bytes.
pub(crate) const BEGINNING: &[u8] =
    b"$c wff |- ( -> ) $.\n$v p q $.\nwp $f wff p $.\nwq $f wff q $.\nwi $a wff ( p -> q ) $.\nax-1 $a |- ( p -> ( q -> p ) ) $.\n";

/// Two theorems with a hypothesis, of which the second cites the first, twice.
pub(crate) const CITED_TWICE: &[u8] =
    b"$c wff |- ( -> ) $.\n$v p q $.\nwp $f wff p $.\nwq $f wff q $.\nwi $a wff ( p -> q ) $.\nax-1 $a |- ( p -> ( q -> p ) ) $.\n${ min $e |- p $. maj $e |- ( p -> q ) $. ax-mp $a |- q $. $}\n${ h $e |- p $. a1i $p |- ( q -> p ) $= wp wq wp wi h wp wq ax-1 ax-mp $. $}\n${ g $e |- p $. a2 $p |- ( q -> ( q -> p ) ) $= wq wp wi wq wp wq g a1i a1i $. $}\n";

/// The report for that text.
pub(crate) const CITED_TWICE_REPORT: &[u8] =
    b"mmdepend 1\naxioms 3\ntheorems 2\nmatrix\na1i:111\na2:111\ncounts\na1i:3\na2:3\nusage\nwi:2:a1i a2\nax-1:2:a1i a2\nax-mp:2:a1i a2\nend\n";

/// The report of its statements.
pub(crate) const CITED_TWICE_STATEMENTS: &[u8] =
    b"mmdepend 1\naxioms 3\ntheorems 2\nstatements\nwi:a:60:83: $f wp wff p $f wq wff q $a wff ( p -> q )\nax-1:a:84:117: $f wp wff p $f wq wff q $a |- ( p -> ( q -> p ) )\nax-mp:a:160:176: $f wp wff p $f wq wff q $e min |- p $e maj |- ( p -> q ) $a |- q\na1i:p:196:253: $f wp wff p $f wq wff q $e h |- p $p |- ( q -> p )\na2:p:273:335: $f wp wff p $f wq wff q $e g |- p $p |- ( q -> ( q -> p ) )\nend\n";

/// Two blocks, and two theorems with a dummy variable that has to be distinct from the other one.
pub(crate) const DUMMIES: &[u8] =
    b"$c wff |- $. $v x y z $.\n${ fx $f wff x $. fy $f wff y $. fz $f wff z $. $d x y z $. e $e |- x y $. ax $a |- y $. $}\n${ gx $f wff x $. gz $f wff z $. $d x z $. one $a wff $. two $a |- x $.\n${ m $e |- z $. cut $a |- x $. $}\np $p |- x $= gx gz gz two cut $.\nq $p |- x $= ( gz two cut ) ABBCD $.\n$}\n";

/// The report of the statements of that text.
pub(crate) const DUMMIES_STATEMENTS: &[u8] =
    b"mmdepend 1\naxioms 4\ntheorems 2\nstatements\nax:a:100:113: $f fx wff x $f fy wff y $e e |- x y $d x y $a |- y\none:a:160:173: $a wff\ntwo:a:174:188: $f gx wff x $a |- x\ncut:a:205:219: $f gx wff x $f gz wff z $e m |- z $d x z $a |- x\np:p:223:255: $f gx wff x $v z $d x z $p |- x\nq:p:256:292: $f gx wff x $v z $d x z $p |- x\nend\n";

/// Only the first of these theorems, its proof in compressed form with a step that is marked and
/// repeated.
pub(crate) const COMPRESSED: &[u8] =
    b"$c wff |- ( -> ) $.\n$v p q $.\nwp $f wff p $.\nwq $f wff q $.\nwi $a wff ( p -> q ) $.\nax-1 $a |- ( p -> ( q -> p ) ) $.\n${ min $e |- p $. maj $e |- ( p -> q ) $. ax-mp $a |- q $. $}\n${ h $e |- p $. a1i $p |- ( q -> p ) $= ( wi ax-1 ax-mp ) AZBADCGBEF $. $}\n";

/// The report for that text.
pub(crate) const COMPRESSED_REPORT: &[u8] =
    b"mmdepend 1\naxioms 3\ntheorems 1\nmatrix\na1i:111\ncounts\na1i:3\nusage\nwi:1:a1i\nax-1:1:a1i\nax-mp:1:a1i\nend\n";

/// A theorem whose proof replaces two variables that have to be disjoint by two that aren't: E36 at
/// column 31 of line 8.
pub(crate) const NOT_DISJOINT: &[u8] =
    b"$c wff |- ( -> ) $.\n$v p q $.\nwp $f wff p $.\nwq $f wff q $.\nwi $a wff ( p -> q ) $.\nax-1 $a |- ( p -> ( q -> p ) ) $.\n${ $d p q $. ax-d $a |- ( p -> q ) $. $}\nbad $p |- ( p -> q ) $= wp wq ax-d $.\n";

/// The refusal of that text.
pub(crate) const NOT_DISJOINT_REFUSAL: &[u8] = b"refused 8:31 E36\n";

/// That text with a `$d` for the two, so that the proof is valid.
pub(crate) const DISJOINT: &[u8] =
    b"$c wff |- ( -> ) $.\n$v p q $.\nwp $f wff p $.\nwq $f wff q $.\nwi $a wff ( p -> q ) $.\nax-1 $a |- ( p -> ( q -> p ) ) $.\n${ $d p q $. ax-d $a |- ( p -> q ) $. $}\n${ $d p q $. good $p |- ( p -> q ) $= wp wq ax-d $. $}\n";

/// The report for that text.
pub(crate) const DISJOINT_REPORT: &[u8] =
    b"mmdepend 1\naxioms 3\ntheorems 1\nmatrix\ngood:001\ncounts\ngood:1\nusage\nwi:0:\nax-1:0:\nax-d:1:good\nend\n";

/// Two theorems whose proofs aren't valid; the first takes longer to check.
pub(crate) const TWO_FAULTS: &[u8] =
    b"$c wff |- ( -> ) $.\n$v p q $.\nwp $f wff p $.\nwq $f wff q $.\nwi $a wff ( p -> q ) $.\nax-1 $a |- ( p -> ( q -> p ) ) $.\nlong $p wff p $= wp wq wp wi wp wi wp wi wp wi $.\nshort $p wff p $= wq $.\n";

/// The refusal of that text.
pub(crate) const TWO_FAULTS_REFUSAL: &[u8] = b"refused 7:48 E37\n";
