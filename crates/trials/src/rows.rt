//! Rows of bits, waves, and tables of marks as digits.

ghost use Rattle.std.specs.Prelude.{◌≤◌};

use crate::databases::database_of;
use crate::flags::{BY_ALL_NODES, WITHOUT_OPEN};
use crate::runs::many::{AXIOMS, WAVE_LENGTH, rests_on, wide_text};
use crate::texts::{chain_text, seventy_axioms_text, through_a_theorem};
use mm_rows::{Columns, Matrix, matrix, ones, or_row, waves};
use mm_work::{Judged, Open, check_all};
use std::alloc::{AllocError, Global};
use std::sync::Wait;
use std::thread::Threads;

/// How many words a row here has at most: four times the eight that `or_row` takes at a time, and
/// one more.
const MAX_WORDS: usize = 33;

/// A row of words with some bits set, all different. The first word and what changes it are
/// arbitrary.
fn sample_row() -> [u64; MAX_WORDS] {
    let mut all = [0u64; MAX_WORDS];
    let mut word = 0x9E37_79B9_7F4A_7C15u64;
    for i in 0..MAX_WORDS {
        all[i] = word;
        word = word.rotate_left(7) ^ 0x0123_4567_89AB_CDEF;
    }
    all
}

/// Whether `or_row` sets the bits of the plain loop in rows of so many words.
fn is_or_the_plain_loop(count: usize) -> bool
    requires { count ≤ MAX_WORDS }
{
    let mut into = [0x00FF_00FF_00FF_00FFu64; MAX_WORDS];
    let mut expected = into;
    let from = sample_row();
    or_row(&mut into[..count], &from[..count]);
    for i in 0..count {
        expected[i] |= from[i];
    }
    into == expected
}

#[test]
fn or_by_lanes_is_the_plain_loop(rt: HostRuntime) {
    for count in 0..MAX_WORDS + 1 {
        assert!(&rt; is_or_the_plain_loop(count), "{count} words");
    }
}

#[test]
fn ones_by_lanes_are_the_plain_sum(rt: HostRuntime) {
    let row = sample_row();
    let mut expected = 0u64;
    let mut is_right = ones(&[u64::MAX; 5]) == 320;
    for count in 0..MAX_WORDS + 1 {
        is_right = is_right && ones(&row[..count]) == expected;
        if count < MAX_WORDS {
            expected = expected.wrapping_add(u64::from(row[count].count_ones()));
        }
    }
    assert!(&rt; is_right);
}

/// How many workers check the proofs.
const WORKERS: u32 = 1;

/// The matrix of a text without a fault, with all axioms as columns. Fails if there is no memory
/// for the text, too.
fn matrix_of<R: Threads + Wait + Sync>(
    rt: &R,
    alloc: Global,
    text: Result<Vec<u8>, AllocError>,
) -> Result<Matrix<Global>, AllocError> {
    let text = text?;
    let database = database_of(rt, alloc, &text, WITHOUT_OPEN)?;
    let columns = Columns::new(alloc, &database, None)?;
    match check_all(rt, alloc, &database, WORKERS, BY_ALL_NODES, &Open)? {
        Judged::Valid(citations) => matrix(rt, alloc, &citations, &columns),
        Judged::Faulty(_) => Err(AllocError),
    }
}

/// Whether `digit` returns these digits for a row of 70 columns.
fn is_row_of_digits(table: &Matrix<Global>, row: u32, digits: &[u8; 18]) -> bool {
    if table.rows() <= row || table.columns() != 70 {
        return false;
    }
    for i in 0..18u32 {
        if table.digit(row, i) != digits[i as usize] {
            return false;
        }
    }
    true
}

/// Whether `write_digits` writes the two words of such a row as these digits.
fn is_row_written_as(table: &Matrix<Global>, row: u32, digits: &[u8; 32]) -> bool {
    if table.rows() <= row || table.columns() != 70 {
        return false;
    }
    let mut written = [0u8; 32];
    table.marked().write_digits(row, 0, &mut written);
    written == *digits
}

/// Whether the two rows of seventy axioms have their digits.
fn are_digits_right(table: &Matrix<Global>) -> bool {
    let digits_of_t = [8, 0, 0, 0, 0, 0, 0, 0, 0, 0, 0, 0, 0, 0, 0, 1, 8, 4];
    let digits_of_u = [12, 0, 0, 0, 0, 0, 0, 0, 0, 0, 0, 0, 0, 0, 0, 1, 8, 4];
    is_row_of_digits(table, 0, &digits_of_t)
        && is_row_written_as(table, 0, b"80000000000000018400000000000000")
        && is_row_of_digits(table, 1, &digits_of_u)
        && is_row_written_as(table, 1, b"c0000000000000018400000000000000")
}

#[test]
fn digits_of_more_than_a_word(rt: HostRuntime) {
    let is_right = match matrix_of(&rt, rt.alloc(), seventy_axioms_text(rt.alloc())) {
        Ok(table) => are_digits_right(&table),
        Err(_) => false,
    };
    assert!(&rt; is_right);
}

/// Whether the theorems of a text have these waves.
fn has_waves<R: Threads + Wait + Sync>(
    rt: &R,
    alloc: Global,
    text: Result<Vec<u8>, AllocError>,
    expected: &[u32],
) -> Result<bool, AllocError> {
    let text = text?;
    let database = database_of(rt, alloc, &text, WITHOUT_OPEN)?;
    match check_all(rt, alloc, &database, WORKERS, BY_ALL_NODES, &Open)? {
        Judged::Valid(citations) => Ok(waves(alloc, &citations)?.as_slice() == expected),
        Judged::Faulty(_) => Ok(false),
    }
}

#[test]
fn waves_are_the_longest_chains(rt: HostRuntime) {
    let alloc = rt.alloc();
    let mut rows = [0u32; 130];
    for row in 0..130u32 {
        rows[row as usize] = row;
    }
    let of_two = has_waves(&rt, alloc, through_a_theorem(alloc), &[0, 1]);
    let of_seventy = has_waves(&rt, alloc, seventy_axioms_text(alloc), &[0, 1]);
    let of_chain = has_waves(&rt, alloc, chain_text(alloc), &rows);
    assert!(&rt;
        of_two.unwrap_or(false) && of_seventy.unwrap_or(false) && of_chain.unwrap_or(false)
    );
}

/// Whether a table has the marks of the wide text: for each theorem those of the axioms that it
/// rests on.
fn has_wide_marks(table: &Matrix<Global>) -> bool {
    if table.rows() != 2 * WAVE_LENGTH || table.columns() != AXIOMS {
        return false;
    }
    for k in 0..WAVE_LENGTH {
        for axiom in 0..AXIOMS {
            let is_first_right = table.cell(k, axiom) == rests_on(b't', k, axiom);
            let is_second_right = table.cell(WAVE_LENGTH + k, axiom) == rests_on(b'u', k, axiom);
            if !is_first_right || !is_second_right {
                return false;
            }
        }
    }
    true
}

// The rows of the second wave are made from those of the first.
#[test]
fn rows_are_those_of_a_plain_loop(rt: HostRuntime) {
    let is_right = match matrix_of(&rt, rt.alloc(), wide_text(rt.alloc())) {
        Ok(table) => has_wide_marks(&table),
        Err(_) => false,
    };
    assert!(&rt; is_right);
}
