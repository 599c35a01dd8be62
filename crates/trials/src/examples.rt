//! The smallest example of each fault of words and statements, and texts that come close to one.
//! The tests of the layers that find these faults and those of whole runs use the same examples.

use crate::texts::NOTHING_REPORT;

/// A text; the number of tokens (for a fault of words) or of statements before its fault or its
/// end; the fault's place, a byte offset from 0, and the number of its code; and what a run writes.
pub(crate) type Example = (&'static [u8], usize, Option<(u32, u8)>, &'static [u8]);

/// Faults of bytes and words, each with the number of tokens before it.
pub(crate) const WORDS: [Example; 6] = [
    (b"$c a\x07 $.", 1, Some((4, 1)), b"refused 1:5 E01\n"),
    (
        b"$c a $( b $( c $) $.",
        2,
        Some((10, 2)),
        b"refused 1:11 E02\n",
    ),
    (b"$( x $(y", 0, Some((5, 2)), b"refused 1:6 E02\n"),
    (b"$c a $.\n$( x", 3, Some((8, 3)), b"refused 2:1 E03\n"),
    (b"$c a$b $.", 1, Some((3, 4)), b"refused 1:4 E04\n"),
    (b"$)", 0, Some((0, 4)), b"refused 1:1 E04\n"),
];

/// Faults of the shape of statements and of the end, each with the number of statements before it.
pub(crate) const SHAPES: [Example; 7] = [
    (b"$[ set.mm $]", 0, Some((0, 5)), b"refused 1:1 E05\n"),
    (b"a,b $a a $.", 0, Some((0, 6)), b"refused 1:1 E06\n"),
    (b"$c a $. $.", 1, Some((8, 7)), b"refused 1:9 E07\n"),
    (b"$c a", 0, Some((4, 8)), b"refused 1:5 E08\n"),
    (b"$c a $.\n$}", 1, Some((8, 9)), b"refused 2:1 E09\n"),
    (b"${\n", 1, Some((3, 10)), b"refused 2:1 E10\n"),
    (b"${ $}", 2, None, NOTHING_REPORT),
];

/// Faults of symbols, labels and scope, each with the number of statements before it.
pub(crate) const SCOPES: [Example; 18] = [
    (
        b"$c a $. ${ $c b $. $}",
        2,
        Some((11, 11)),
        b"refused 1:12 E11\n",
    ),
    (b"$c $.", 0, Some((3, 12)), b"refused 1:4 E12\n"),
    (b"$c a a $.", 0, Some((5, 13)), b"refused 1:6 E13\n"),
    (b"$v x $. $v x $.", 1, Some((11, 13)), b"refused 1:12 E13\n"),
    (
        b"$c a $. b $a a $. $c b $.",
        2,
        Some((21, 14)),
        b"refused 1:22 E14\n",
    ),
    (
        b"$c a $. b $a a $. b $a a $.",
        2,
        Some((18, 15)),
        b"refused 1:19 E15\n",
    ),
    (b"$c a $. b $a $.", 1, Some((13, 17)), b"refused 1:14 E17\n"),
    (
        b"$c a $. b $a a x $.",
        1,
        Some((15, 18)),
        b"refused 1:16 E18\n",
    ),
    (
        b"$c a $. $v x $. fx $f a $.",
        2,
        Some((19, 19)),
        b"refused 1:20 E19\n",
    ),
    (
        b"$c a $. $v x $. fx $f a x $. gx $f a x $.",
        3,
        Some((37, 20)),
        b"refused 1:38 E20\n",
    ),
    (
        b"$c a b $. ${ $v x $. fx $f a x $. $} ${ $v x $. gx $f b x $. $}",
        7,
        Some((56, 21)),
        b"refused 1:57 E21\n",
    ),
    (
        b"$c a b $. ${ $v x $. fx $f a x $. $} ${ $v x $. gx $f a x $. $}",
        9,
        None,
        NOTHING_REPORT,
    ),
    (
        b"$c a $. $v x $. y $a a x $.",
        2,
        Some((23, 22)),
        b"refused 1:24 E22\n",
    ),
    (b"$v x $. $d x $.", 1, Some((13, 23)), b"refused 1:14 E23\n"),
    (
        b"$v x $. $d x y $.",
        1,
        Some((13, 24)),
        b"refused 1:14 E24\n",
    ),
    (
        b"$v x $. $d x x $.",
        1,
        Some((13, 25)),
        b"refused 1:14 E25\n",
    ),
    (b"${ $v x $. $} $v x $.", 4, None, NOTHING_REPORT),
    (
        b"$c a $. ${ $v x $. $} b $a a x $.",
        4,
        Some((29, 18)),
        b"refused 1:30 E18\n",
    ),
];
