//! Texts cut in many ways, and the summaries of stretches.

ghost use Rattle.std.specs.Prelude.{◌<◌, ◌≤◌, ◌≡◌, IfOk, length};
ghost use Rattle.mm_lex.specs.Pieces.{IsSummary};

use crate::examples::WORDS;
use crate::flags::{INSIDE_COMMENT, OUTSIDE_COMMENT};
use crate::texts::{joined, through_a_theorem};
use mm_lex::{Code, Cuts, Fault, Lexed, Piece, Word, join, lex, lex_piece};
use mm_spec::TEXT_LIMIT;
use std::alloc::{AllocError, Global};
use std::thread::{self, Threads};

/// Tokens, comments and a comment that stays open.
const TEXT_WITH_COMMENTS: &[u8] = b"$c a $( $c b $) xy $. $( z $) $( $d";

/// The text of the table of stretches.
const STRETCHED_TEXT: &[u8] = b"ab $( c $) d";

/// The most pieces into which a text is cut.
const MOST_PIECES: u32 = 65_536;

/// How many tokens the text with two theorems has.
const THROUGH_TOKENS: usize = 120;

fn fault(at: u32, code: Code) -> Option<Fault> {
    Some(Fault { at, code })
}

fn word(start: u32, end: u32) -> Word {
    Word { start, end }
}

/// The reading of the text in the given number of equal pieces.
fn lex_in_pieces<R: Threads + Sync>(
    rt: &R,
    alloc: Global,
    text: &[u8],
    count: u32,
) -> Result<Lexed<Global>, AllocError>
    requires count_is_positive { 0 < count }
    requires count_le_limit { count ≤ MOST_PIECES }
{
    let cuts = Cuts::equal(alloc, text.len().min(TEXT_LIMIT + 1), count)?;
    lex(rt, alloc, text, &cuts)
}

/// Whether the text, in that many pieces, has so many tokens, and this fault, by its place and the
/// number of its code.
fn is_counted<R: Threads + Sync>(
    rt: &R,
    alloc: Global,
    text: &[u8],
    count: u32,
    tokens: usize,
    fault: Option<(u32, u8)>,
) -> bool
    requires count_is_positive { 0 < count }
    requires count_le_limit { count ≤ MOST_PIECES }
{
    match lex_in_pieces(rt, alloc, text, count) {
        Ok(lexed) => {
            let found = match lexed.fault {
                Some(fault) => Some((fault.at, fault.code.number())),
                None => None,
            };
            lexed.tokens.len() == tokens && found == fault
        }
        Err(_) => false,
    }
}

/// Texts without a fault of words, and how many tokens they have.
const FAULTLESS: [(&[u8], usize); 4] = [
    (b"", 0),
    (b"$[ set.mm $]", 3),
    (b"$c a $. $.", 4),
    (b"a,b $( a $c b $) $a a $.\x0C", 4),
];

#[test]
fn lexes_vectors(rt: HostRuntime) {
    for count in 1..6 {
        for (row, (text, tokens, fault, _)) in WORDS.iter().enumerate() {
            let is_right = is_counted(&rt, rt.alloc(), text, count, *tokens, *fault);
            assert!(&rt; is_right, "row {row} of WORDS in {count} pieces");
        }
        for (row, (text, tokens)) in FAULTLESS.iter().enumerate() {
            let is_right = is_counted(&rt, rt.alloc(), text, count, *tokens, None);
            assert!(&rt; is_right, "row {row} of FAULTLESS in {count} pieces");
        }
    }
}

/// Whether the text, in that many pieces, has these tokens and this fault.
fn is_read_as<R: Threads + Sync>(
    rt: &R,
    alloc: Global,
    text: &[u8],
    count: u32,
    tokens: &[Word],
    fault: Option<Fault>,
) -> bool
    requires count_is_positive { 0 < count }
    requires count_le_limit { count ≤ MOST_PIECES }
{
    match lex_in_pieces(rt, alloc, text, count) {
        Ok(lexed) => lexed.tokens.as_slice() == tokens && lexed.fault == fault,
        Err(_) => false,
    }
}

#[test]
fn gives_places(rt: HostRuntime) {
    let tokens = [word(1, 3), word(5, 7), word(8, 10)];
    assert!(&rt; is_read_as(&rt, rt.alloc(), b" $c  ab\n$.", 1, &tokens, None));
}

/// Whether the text, cut twice at this place, with an empty piece between, is read as it is when it
/// is whole.
fn is_cut_read_alike<R: Threads + Sync>(
    rt: &R,
    alloc: Global,
    text: &[u8],
    place: u32,
    whole: &Lexed<Global>,
) -> Result<bool, AllocError> {
    let places = vec![in alloc; place, place]?;
    match Cuts::from_places(places, text.len()) {
        Ok(cuts) => {
            let lexed = lex(rt, alloc, text, &cuts)?;
            Ok(lexed.tokens.as_slice() == whole.tokens.as_slice() && lexed.fault == whole.fault)
        }
        Err(_) => Ok(false),
    }
}

/// Whether the text, cut so at each place, is read as it is when it is whole.
fn are_cuts_read_alike<R: Threads + Sync>(
    rt: &R,
    alloc: Global,
    text: &[u8],
    whole: &Lexed<Global>,
) -> bool {
    for place in 0..=text.len().min(TEXT_LIMIT) as u32 {
        if !is_cut_read_alike(rt, alloc, text, place, whole).unwrap_or(false) {
            return false;
        }
    }
    true
}

/// Whether the text is read alike in each of these numbers of pieces.
fn are_pieces_read_alike<R: Threads + Sync>(
    rt: &R,
    alloc: Global,
    text: &[u8],
    whole: &Lexed<Global>,
    counts: &[u32],
) -> bool {
    for count in counts {
        let count = (*count).max(1).min(MOST_PIECES);
        if !is_read_as(rt, alloc, text, count, &whole.tokens, whole.fault) {
            return false;
        }
    }
    true
}

/// Whether the text has so many tokens and this fault, and is read alike in each of these numbers
/// of pieces, and with each cut if `at_each_place` is set.
fn is_read_alike<R: Threads + Sync>(
    rt: &R,
    alloc: Global,
    text: Result<Vec<u8>, AllocError>,
    tokens: usize,
    fault: Option<Fault>,
    at_each_place: bool,
    counts: &[u32],
) -> Result<bool, AllocError> {
    let text = text?;
    let whole = lex_in_pieces(rt, alloc, &text, 1)?;
    Ok(
        whole.tokens.len() == tokens
            && whole.fault == fault
            && are_pieces_read_alike(rt, alloc, &text, &whole, counts)
            && (!at_each_place || are_cuts_read_alike(rt, alloc, &text, &whole)),
    )
}

#[test]
fn lexes_every_cut(rt: HostRuntime) {
    let text = TEXT_WITH_COMMENTS.to_vec(rt.alloc());
    let open = fault(30, Code::OpenComment);
    assert!(&rt; is_read_alike(&rt, rt.alloc(), text, 4, open, true, &[]).unwrap_or(false));
}

/// Two theorems, cut at each place, and into many more pieces than they have bytes.
#[test]
fn lexes_theorems_in_pieces(rt: HostRuntime) {
    let text = through_a_theorem(rt.alloc());
    let counts = [MOST_PIECES];
    let is_right = is_read_alike(&rt, rt.alloc(), text, THROUGH_TOKENS, None, true, &counts);
    assert!(&rt; is_right.unwrap_or(false));
}

/// Whether two words and a bad byte behind so many spaces are read so.
fn is_read_behind<R: Threads + Sync>(
    rt: &R,
    alloc: Global,
    spaces: &[u8],
) -> Result<bool, AllocError> {
    let text = joined(alloc, &[spaces, b"ab $c x\x80"])?;
    let place = spaces.len().min(130) as u32;
    let tokens = [word(place, place + 2), word(place + 3, place + 5)];
    Ok(is_read_as(
        rt,
        alloc,
        &text,
        1,
        &tokens,
        fault(place + 7, Code::BadByte),
    ))
}

/// Two words and a bad byte at every place in and near two blocks.
#[test]
fn lexes_at_every_place(rt: HostRuntime) {
    let spaces = [b' '; 130];
    for place in 0..130 {
        let is_right = is_read_behind(&rt, rt.alloc(), &spaces[..place]);
        assert!(&rt; is_right.unwrap_or(false), "{place} spaces");
    }
}

/// A thousand lines with comments.
fn thousand_lines(alloc: Global) -> Result<Vec<u8>, AllocError> {
    let mut text = Vec::new(alloc);
    for _ in 0..1000 {
        text.extend_from_slice(b"$c a $( $c b $) xy $. $( z $)\n")?;
    }
    Ok(text)
}

/// More pieces than bytes, and more pieces than runs.
#[test]
fn lexes_many_pieces(rt: HostRuntime) {
    let text = thousand_lines(rt.alloc());
    let counts = [2, 63, 64, 65, 1000, MOST_PIECES];
    let is_right = is_read_alike(&rt, rt.alloc(), text, 4000, None, false, &counts);
    assert!(&rt; is_right.unwrap_or(false));
}

/// A stretch of the text by its ends, the head and the tail of its summary, its tokens where no
/// comment is open before it, and its fault where one is.
type Stretch = (usize, usize, [Word; 2], &'static [Word], Option<Fault>);

const STRETCHES: [Stretch; 4] = [
    (
        0,
        1,
        [Word { start: 0, end: 0 }, Word { start: 0, end: 1 }],
        &[],
        None,
    ),
    (
        1,
        9,
        [Word { start: 1, end: 2 }, Word { start: 8, end: 9 }],
        &[],
        Some(Fault {
            at: 3,
            code: Code::MarkInComment,
        }),
    ),
    (
        9,
        12,
        [Word { start: 9, end: 10 }, Word { start: 12, end: 12 }],
        &[Word { start: 11, end: 12 }],
        None,
    ),
    (
        6,
        7,
        [Word { start: 6, end: 6 }, Word { start: 7, end: 7 }],
        &[],
        None,
    ),
];

/// Whether the stretch has its summary.
fn is_summarized(alloc: Global, stretch: &Stretch) -> bool {
    let (from, to, ends, outside, inside_fault) = stretch;
    if *to < *from || STRETCHED_TEXT.len() < *to {
        return false;
    }
    match lex_piece(alloc, STRETCHED_TEXT, *from, *to) {
        Ok(piece) => {
            piece.from() as usize == *from
                && piece.to() as usize == *to
                && [piece.head(), piece.tail()] == *ends
                && piece.tokens(OUTSIDE_COMMENT) == *outside
                && piece.fault(OUTSIDE_COMMENT).is_none()
                && piece.tokens(INSIDE_COMMENT).is_empty()
                && piece.fault(INSIDE_COMMENT) == *inside_fault
                && piece.unbroken() == (*from == 6)
        }
        Err(_) => false,
    }
}

#[test]
fn summarizes_stretches(rt: HostRuntime) {
    for (row, stretch) in STRETCHES.iter().enumerate() {
        assert!(&rt; is_summarized(rt.alloc(), stretch), "row {row}");
    }
}

/// Whether this is the summary of the whole text.
fn is_whole(answer: Result<Piece<Global>, AllocError>) -> bool {
    match answer {
        Ok(piece) => {
            piece.from() == 0
                && piece.to() == 12
                && piece.tokens(OUTSIDE_COMMENT) == [word(0, 2), word(11, 12)].as_slice()
                && piece.fault(OUTSIDE_COMMENT).is_none()
        }
        Err(_) => false,
    }
}

/// The summary of two neighbouring stretches of the text, each read by a thread.
fn joined_by_threads<R: Threads>(
    rt: &R,
    alloc: Global,
    text: &[u8],
    from: usize,
    middle: usize,
    to: usize,
) -> Result<Piece<Global>, AllocError>
    requires from_le_middle { from ≤ middle }
    requires middle_le_to { middle ≤ to }
    requires to_le_end { to ≤ length text.now }
    requires text_fits_limit { length text.now ≤ TEXT_LIMIT }
    ensures from_is { IfOk result (λ piece. piece.from ≡ from) }
    ensures to_is { IfOk result (λ piece. piece.to ≡ to) }
    ensures is_summary { IfOk result (IsSummary text.now) }
{
    let (first, second) = thread::join(
        rt,
        move || lex_piece(alloc, text, from, middle),
        move || lex_piece(alloc, text, middle, to),
    );
    join(alloc, text, first?, second?)
}

/// The stretches 0 to 1, 1 to 9 and 9 to 12; the first two are joined first.
#[test]
fn joins_from_the_left(rt: HostRuntime) -> Result<(), AllocError> {
    let front = joined_by_threads(&rt, rt.alloc(), STRETCHED_TEXT, 0, 1, 9)?;
    let third = lex_piece(rt.alloc(), STRETCHED_TEXT, 9, 12)?;
    assert!(&rt; is_whole(join(rt.alloc(), STRETCHED_TEXT, front, third)));
    Ok(())
}

/// The same stretches, the last two joined first.
#[test]
fn joins_from_the_right(rt: HostRuntime) -> Result<(), AllocError> {
    let back = joined_by_threads(&rt, rt.alloc(), STRETCHED_TEXT, 1, 9, 12)?;
    let first = lex_piece(rt.alloc(), STRETCHED_TEXT, 0, 1)?;
    assert!(&rt; is_whole(join(rt.alloc(), STRETCHED_TEXT, first, back)));
    Ok(())
}

/// The stretches 0 to 5 and 5 to 12.
#[test]
fn joins_from_threads(rt: HostRuntime) {
    assert!(&rt; is_whole(joined_by_threads(&rt, rt.alloc(), STRETCHED_TEXT, 0, 5, 12)));
}
