//! Refusals.

ghost use Rattle.std.specs.Prelude.{◌≡◌, ◌≤◌, ◌<◌, ◌+◌, ◌++◌, ◌∷◌, [], ℕ, length, take, decimal};
ghost use Rattle.std.specs.Prelude.{codes, count_by, ◌==◌, OnOk, OnErr};
ghost use Rattle.std.specs.Io.KnownBytes.{Appends};
ghost use Rattle.mm_spec.specs.Report.{refusal, bytes_after_line_feed, two_digits};
ghost use Rattle.mm_report.specs.Sent.{Pending, pending, Sent};

use crate::sink::{Sink, WriteFailed};
use mm_bytes::count_lf;
use mm_spec::Fault;
use std::io::Write;

/// Returns the number of bytes after the last line feed.
fn bytes_after_line_feed(bytes: &[u8]) -> u64
    ensures value_is { result ≡ bytes_after_line_feed bytes.now }
    ensures count_le_length { result ≤ length bytes.now }
{
    let mut count = 0u64;
    for b in bytes {
        count = if *b == b'\n' { 0 } else { count + 1 };
    }
    count
}

/// Sends a number below 100 as two digits.
fn send_two_digits<W: Write>(sink: &mut Sink, to: &mut W, n: u8)
    requires { n < 100 }
    ensures { Sent (W.contents to.old) (W.contents to.new) sink.old sink.new (two_digits n) }
{
    if n < 10 {
        sink.send_byte(to, b'0');
        sink.send_number(to, n as u64);
    } else {
        sink.send_number(to, n as u64);
    }
}

/// Sends the refusal of a text for a fault.
fn send_refusal<W: Write>(sink: &mut Sink, to: &mut W, text: &[u8], fault: &Fault)
    ensures { Sent (W.contents to.old) (W.contents to.new) sink.old sink.new
        (refusal text.now fault.now) }
{
    let before = &text[..(fault.at as usize).min(text.len())];
    sink.send(to, b"refused ");
    sink.send_number(to, count_lf(before) as u64 + 1);
    sink.send_byte(to, b':');
    sink.send_number(to, bytes_after_line_feed(before) + 1);
    sink.send(to, b" E");
    send_two_digits(sink, to, fault.code.number());
    sink.send_byte(to, b'\n');
}

/// Writes the refusal of a text for a fault. Returns `WriteFailed` if a write failed or accepted no
/// byte of a piece that wasn't empty; then a prefix of the refusal has been written.
pub fn write_refusal<W: Write>(to: &mut W, text: &[u8], fault: &Fault) -> Result<(), WriteFailed>
    ensures refusal_is_written { OnOk result
        (Appends (W.contents to.old) (W.contents to.new) (refusal text.now fault.now)) }
    ensures prefix_is_written { OnErr result
        ((k : ℕ)
        × Appends (W.contents to.old) (W.contents to.new) (take k (refusal text.now fault.now))) }
{
    let mut sink = Sink::new();
    send_refusal(&mut sink, to, text, fault);
    sink.finish(to)
}

/// Writes the refusal of one of two texts for a fault, after a word and a space that say which text
/// it is. Returns `WriteFailed` if a write failed or accepted no byte of a piece that wasn't empty;
/// then a prefix of both has been written.
pub fn write_refusal_after<W: Write>(
    to: &mut W,
    word: &[u8],
    text: &[u8],
    fault: &Fault,
) -> Result<(), WriteFailed>
    ensures refusal_is_written { OnOk result
        (Appends (W.contents to.old) (W.contents to.new)
        (word.now ++ refusal text.now fault.now)) }
    ensures prefix_is_written { OnErr result
        ((k : ℕ)
        × Appends (W.contents to.old) (W.contents to.new)
        (take k (word.now ++ refusal text.now fault.now))) }
{
    let mut sink = Sink::new();
    sink.send(to, word);
    send_refusal(&mut sink, to, text, fault);
    sink.finish(to)
}
