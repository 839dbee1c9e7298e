// What a recovery says when the reading is over.
ghost use Rattle.std.specs.Prelude.{◌≡◌, ◌≤◌, ◌<◌, length, get_or, Result, IfOk, OnErr};
ghost use Rattle.calls.specs.Promises.{AskedByte};
ghost use Rattle.refusals.specs.Numbers.{numbered};
ghost use Rattle.refusals.specs.declared.Refusal as refused;
ghost use Rattle.answers.specs.declared.Answer as declared;
ghost use Rattle.transcripts.specs.Lines.{place_line};
ghost use Rattle.recover.specs.Gathered.{answer_in, Said};

use crate::output;
use answers::Answer;
use recovery::Recovery;
use refusals::Refusal;
use serials::Serial;
use std::io::{self, Stdout};

// What asking says of a place, by its byte in the list.
fn answer_of(byte: u8) -> Result<Answer, Refusal>
    ensures { result ≡ answer_in byte }
{
    if byte == 0 {
        return Ok(Answer::NotLast);
    }
    if byte == 1 {
        return Ok(Answer::Last);
    }
    Ok(Answer::Open)
}

// The line of a place: whatever answer its byte in the list is of, the line says that.
fn list_place(
    to: Stdout,
    out: &mut [u8],
    used: usize,
    serials: &[u32; 128],
    listed: &[u8; 128],
    p: usize,
) -> io::Result<usize>
    requires used_in_bounds { used ≤ length out.old }
    requires in_bounds { 64 ≤ length out.old }
    requires p_bound { p < 128 }
    ensures ok { IfOk result (λ end. (a : Result declared.Answer refused.Refusal) → AskedByte a (get_or listed.now p 0) → Said (place_line (get_or serials.now p 0) (numbered a)) used out.old out.new end) }
    ensures err { OnErr result (out.new ≡ out.old) }
{
    let serial = Serial(serials[p]);
    let answer = answer_of(listed[p]);
    output::say_place(to, out, used, serial, answer)
}

// A line for each place.
fn list_places(to: Stdout, out: &mut [u8], used: usize, r: Recovery) -> io::Result<usize>
    requires used_in_bounds { used ≤ length out.old }
    requires in_bounds { 64 ≤ length out.old }
    ensures { IfOk result (λ end. end ≤ length out.old) }
{
    let mut listed = [0u8; 128];
    let _ = recovery::list(r, &mut listed);
    let serials = r.serials;
    let count = standings::size(r.count);
    let mut end = used;
    for p in 0..count {
        end = list_place(to, out, end, &serials, &listed, p)?;
    }
    Ok(end)
}

// The lines of the places and of the whole, or that none was opened: a recovery of no places.
pub(crate) fn list_all(to: Stdout, out: &mut [u8], used: usize, r: Recovery) -> io::Result<usize>
    requires used_in_bounds { used ≤ length out.old }
    requires in_bounds { 64 ≤ length out.old }
    ensures { IfOk result (λ end. end ≤ length out.old) }
{
    if r.count == 0 {
        return output::say_none(to, out, used);
    }
    let end = list_places(to, out, used, r)?;
    output::say_whole(to, out, end, recovery::settled(r))
}
