// The lines of the program's output, laid into a lent buffer from a position on. Where a line does not fit, nothing changes and the answer is
// refusal 13.
#![tactic(auto)]

ghost use Rattle.std.specs.Prelude.{◌≡◌, ◌++◌, ◌+◌, ◌≤◌, length};
ghost use Rattle.layouts.specs.Records.{written_at};
ghost use Rattle.layouts.specs.Fronts.{front};
ghost use Rattle.transcripts.specs.Lines.{ascii, decimal, line, record_line, place_line, whole_line, none_line};

use answers::{Answer, Reply};
use refusals::Refusal;
use serials::Serial;

// The line of the record with this number, from 1. A refusal is said by its number.
pub fn put_record(
    out: &mut [u8],
    at: usize,
    number: u64,
    answer: Result<Reply, u8>,
) -> Result<usize, Refusal>
    ensures value { result ≡ (written_at (record_line number answer) out.old at).answer }
    ensures out_after { out.new ≡ (written_at (record_line number answer) out.old at).buffer }
{
    match answer {
        Ok(Reply::Taken) => put_numbered(out, at, b"record ", number, b" taken"),
        Ok(Reply::Repeated) => put_numbered(out, at, b"record ", number, b" repeated"),
        Err(refusal) => put_refused(out, at, b"record ", number, refusal),
    }
}

// The line of a place: its serial, and its answer, a refusal by its number.
pub fn put_place(
    out: &mut [u8],
    at: usize,
    serial: Serial,
    answer: Result<Answer, u8>,
) -> Result<usize, Refusal>
    ensures value { result ≡ (written_at (place_line serial.0 answer) out.old at).answer }
    ensures out_after { out.new ≡ (written_at (place_line serial.0 answer) out.old at).buffer }
{
    let number = serial.0 as u64;
    match answer {
        Ok(Answer::Last) => put_numbered(out, at, b"", number, b" last"),
        Ok(Answer::NotLast) => put_numbered(out, at, b"", number, b" not"),
        Ok(Answer::Open) => put_numbered(out, at, b"", number, b" open"),
        Err(refusal) => put_refused(out, at, b"", number, refusal),
    }
}

// The last line: whether the whole is settled.
pub fn put_whole(out: &mut [u8], at: usize, settled: bool) -> Result<usize, Refusal>
    ensures value { result ≡ (written_at (whole_line settled) out.old at).answer }
    ensures out_after { out.new ≡ (written_at (whole_line settled) out.old at).buffer }
{
    if settled {
        put_text(out, at, b"whole settled")
    } else {
        put_text(out, at, b"whole open")
    }
}

// The line that stands for all of these where no recovery was opened.
pub fn put_none(out: &mut [u8], at: usize) -> Result<usize, Refusal>
    ensures value { result ≡ (written_at none_line out.old at).answer }
    ensures out_after { out.new ≡ (written_at none_line out.old at).buffer }
{
    put_text(out, at, b"no records")
}

// Lays the last text of a line into the front of `out`, and the byte that ends the line.
fn lay_last(out: &mut [u8], text: &[u8])
    requires { length text.now + 1 ≤ length out.old }
    ensures { out.new ≡ front (line text.now) out.old }
{
    let end = text.len();
    out[..end].copy_from_slice(text);
    out[end] = b'\n';
}

// How many digits a number has in decimal.
fn count_digits(number: u64) -> usize
    ensures value { result ≡ length (decimal number) }
    ensures upper_bound { result ≤ 20 }
{
    number.max(1).ilog10() as usize + 1
}

// Lays the `count` digits of a number into the front of `out`, from the last to the first.
fn lay_decimal(out: &mut [u8], number: u64, count: usize)
    requires count_value { count ≡ length (decimal number) }
    requires count_in_bounds { count ≤ length out.old }
    ensures { out.new ≡ front (decimal number) out.old }
{
    let mut left = number;
    for place in (0..count).rev() {
        out[place] = b'0' + (left % 10) as u8;
        left /= 10;
    }
}

// Lays a line with a number of `count` digits in it into the front of `out`.
fn lay_numbered(out: &mut [u8], head: &[u8], number: u64, count: usize, tail: &[u8])
    requires count_value { count ≡ length (decimal number) }
    requires tail_in_bounds { length head.now + count + length tail.now + 1 ≤ length out.old }
    ensures { out.new ≡ front (line (head.now ++ (decimal number ++ tail.now))) out.old }
{
    let p = head.len();
    out[..p].copy_from_slice(head);
    lay_decimal(&mut out[p..], number, count);
    let q = p + count;
    lay_last(&mut out[q..], tail);
}

// A line with a number in it, from a position on. The bounds keep the sum of the lengths from wrapping.
fn put_numbered(
    out: &mut [u8],
    at: usize,
    head: &[u8],
    number: u64,
    tail: &[u8],
) -> Result<usize, Refusal>
    requires head_len_bound { length head.now ≤ 7 }
    requires tail_len_bound { length tail.now ≤ 12 }
    ensures value { result ≡ (written_at (line (head.now ++ (decimal number ++ tail.now))) out.old at).answer }
    ensures out_after { out.new ≡ (written_at (line (head.now ++ (decimal number ++ tail.now))) out.old at).buffer }
{
    let count = count_digits(number);
    let size = head.len() + count + tail.len() + 1;
    if out.len() < at {
        return Err(Refusal::TooShort);
    }
    if out.len() - at < size {
        return Err(Refusal::TooShort);
    }
    lay_numbered(&mut out[at..], head, number, count, tail);
    Ok(at + size)
}

// The same line with a refusal for its tail.
fn put_refused(
    out: &mut [u8],
    at: usize,
    head: &[u8],
    number: u64,
    refusal: u8,
) -> Result<usize, Refusal>
    requires { length head.now ≤ 7 }
    ensures value { result ≡ (written_at (line (head.now ++ (decimal number ++ (ascii " refused " ++ decimal refusal)))) out.old at).answer }
    ensures out_after { out.new ≡ (written_at (line (head.now ++ (decimal number ++ (ascii " refused " ++ decimal refusal)))) out.old at).buffer }
{
    // a byte has at most three digits, which go where the zeros stand
    let mut tail = *b" refused 000";
    let code = refusal as u64;
    let count = count_digits(code);
    lay_decimal(&mut tail[9..], code, count);
    let end = 9 + count;
    put_numbered(out, at, head, number, &tail[..end])
}

// A line of one text, from a position on.
fn put_text(out: &mut [u8], at: usize, text: &[u8]) -> Result<usize, Refusal>
    ensures value { result ≡ (written_at (line text.now) out.old at).answer }
    ensures out_after { out.new ≡ (written_at (line text.now) out.old at).buffer }
{
    let size = text.len() + 1;
    if out.len() < at {
        return Err(Refusal::TooShort);
    }
    if out.len() - at < size {
        return Err(Refusal::TooShort);
    }
    lay_last(&mut out[at..], text);
    Ok(at + size)
}
