//! The marks of a theorem as hexadecimal digits.

ghost use Rattle.std.specs.Prelude.{◌<◌};
ghost use Rattle.mm_spec.specs.Report.{cells};
ghost use Rattle.mm_spec.specs.declared.Form.TheVariants.{Two};
ghost use Rattle.mm_report.specs.Sent.{Sent};
ghost use Rattle.mm_report.specs.Rows.{marks_of};

use crate::sink::Sink;
use mm_rows::MarkedRows;
use std::alloc::Allocator;
use std::io::Write;

/// How many words of marks are written at a time.
const WORDS_AT_A_TIME: u32 = 32;

/// How many digits these words have: a word has 64 marks, and each digit tells four of them.
const DIGITS: usize = 16 * WORDS_AT_A_TIME as usize;

/// Sends a theorem's digits, those of some words at a time.
pub(crate) fn send_digits<W: Write, A: Allocator>(
    sink: &mut Sink,
    to: &mut W,
    marked: &MarkedRows<A>,
    row: u32,
)
    requires { row < marked.now.rows }
    ensures { Sent (W.contents to.old) (W.contents to.new) sink.old sink.new
        (cells Two (marks_of marked.now row)) }
{
    let mut digits = [b'0'; DIGITS];
    let words = marked.columns().div_ceil(64);
    let mut word = 0u32;
    while word < words {
        let word_count = (words - word).min(WORDS_AT_A_TIME);
        let part = &mut digits[..16 * word_count as usize];
        marked.write_digits(row, word, part);
        // The last word may go on past the last column.
        let digits_left = marked.columns().div_ceil(4) - 16 * word;
        sink.send(to, &part[..digits_left.min(16 * word_count) as usize]);
        word += word_count;
    }
}
