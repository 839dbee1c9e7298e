// The output, gathered in a lent buffer whose first `used` bytes are still to be written out.
ghost use Rattle.std.specs.Prelude.{◌≡◌, ◌⊎◌, ◌+◌, ◌≤◌, length, IfOk, OnErr};
ghost use Rattle.refusals.specs.Numbers.{numbered};
ghost use Rattle.transcripts.specs.Lines.{record_line, place_line, whole_line, none_line};
ghost use Rattle.recover.specs.Gathered.{end_of, Said};

use answers::{Answer, Reply};
use refusals::Refusal;
use serials::Serial;
use std::io::{self, Stdout};

// Writes out what is gathered.
pub(crate) fn flush(to: Stdout, out: &[u8], used: usize) -> io::Result<()>
    requires { used ≤ length out.now }
{
    to.write_all(&out[..used])
}

// Where the next line goes: behind the used bytes, or at the front when these had to be written out to make room.
fn room(to: Stdout, out: &[u8], used: usize) -> io::Result<usize>
    requires used_in_bounds { used ≤ length out.now }
    requires in_bounds { 64 ≤ length out.now }
    ensures result_in_bounds { IfOk result (λ at. at + 64 ≤ length out.now) }
    ensures fact { IfOk result (λ at. (at ≡ used) ⊎ (at ≡ 0)) }
{
    if 64 <= out.len() - used {
        return Ok(used);
    }
    flush(to, out, used)?;
    Ok(0)
}

// Where a line that was laid ends.
fn end_of(laid: Result<usize, Refusal>) -> usize
    ensures { result ≡ end_of laid }
{
    match laid {
        Ok(end) => end,
        Err(_) => 0,
    }
}

pub(crate) fn say_record(
    to: Stdout,
    out: &mut [u8],
    used: usize,
    number: u64,
    answer: Result<Reply, Refusal>,
) -> io::Result<usize>
    requires used_in_bounds { used ≤ length out.old }
    requires in_bounds { 64 ≤ length out.old }
    ensures ok { IfOk result (λ end. Said (record_line number (numbered answer)) used out.old out.new end) }
    ensures err { OnErr result (out.new ≡ out.old) }
{
    let at = room(to, out, used)?;
    let said = answer.map_err(|refusal| refusal as u8);
    Ok(end_of(lines::put_record(out, at, number, said)))
}

pub(crate) fn say_place(
    to: Stdout,
    out: &mut [u8],
    used: usize,
    serial: Serial,
    answer: Result<Answer, Refusal>,
) -> io::Result<usize>
    requires used_in_bounds { used ≤ length out.old }
    requires in_bounds { 64 ≤ length out.old }
    ensures ok { IfOk result (λ end. Said (place_line serial.0 (numbered answer)) used out.old out.new end) }
    ensures err { OnErr result (out.new ≡ out.old) }
{
    let at = room(to, out, used)?;
    let said = answer.map_err(|refusal| refusal as u8);
    Ok(end_of(lines::put_place(out, at, serial, said)))
}

pub(crate) fn say_whole(to: Stdout, out: &mut [u8], used: usize, settled: bool) -> io::Result<usize>
    requires used_in_bounds { used ≤ length out.old }
    requires in_bounds { 64 ≤ length out.old }
    ensures ok { IfOk result (λ end. Said (whole_line settled) used out.old out.new end) }
    ensures err { OnErr result (out.new ≡ out.old) }
{
    let at = room(to, out, used)?;
    Ok(end_of(lines::put_whole(out, at, settled)))
}

pub(crate) fn say_none(to: Stdout, out: &mut [u8], used: usize) -> io::Result<usize>
    requires used_in_bounds { used ≤ length out.old }
    requires in_bounds { 64 ≤ length out.old }
    ensures ok { IfOk result (λ end. Said none_line used out.old out.new end) }
    ensures err { OnErr result (out.new ≡ out.old) }
{
    let at = room(to, out, used)?;
    Ok(end_of(lines::put_none(out, at)))
}
