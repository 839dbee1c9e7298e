// Stored records as C reads and writes them: no recovery and no day is needed. Nothing is kept between calls, and every input has an answer: include/goatmonth.h says what a caller
// promises of its pointers. What the words and numbers mean stands in `boundary`.
#![tactic(auto)]

ghost use Rattle.std.specs.Prelude.{◌≡◌, []};
ghost use Rattle.refusals.specs.Numbers.{numbered};
ghost use Rattle.sets.specs.PlaceSets.{has};
ghost use Rattle.serials.specs.Seconds.{counts_as};
ghost use Rattle.layouts.specs.Records.{reading, reading_lone, roster_is, copiable, copied};
ghost use Rattle.layouts.specs.Desk.{shown_to_desk};
ghost use Rattle.boundary.specs.Words.{set_at, yes_code, end_of};
ghost use Rattle.boundary.specs.Records.{read_code, read_words, sight_code, shown_words, part_told, written_parts};

use boundary::End;
use histories::Kind;
use layouts::Record;
use refusals::Refusal;
use sets::{Place, PlaceSet};

// The seven words of a record that was read, or its refusal.
fn put_reading(out: &mut [u64; 7], got: Result<Record, Refusal>) -> u8
    ensures value { result ≡ read_code got }
    ensures out_after { out.new ≡ read_words got out.old }
{
    match got {
        Ok(x) => {
            let kind = x.kind;
            let own = x.own;
            let mourned = x.mourned;
            let word = words::kind_word(kind);
            let words = [
                word,
                own.0 as u64,
                x.roster as u64,
                x.count as u64,
                mourned.low,
                mourned.high,
                x.next as u64,
            ];
            *out = words;
            0
        }
        Err(fault) => fault as u8,
    }
}

// Reads the record that starts at a position: 1 to 7, or 0 and its seven words. Its own and mourned serials may be second ones of a group
// with these serials.
#[unsafe(no_mangle)]
pub extern "C" fn gm_read(
    bytes: &[u8],
    at: usize,
    firsts: &[u32],
    seconds: &[u32],
    out: &mut [u64; 7],
) -> u8
    ensures value { result ≡ read_code (reading (counts_as firsts.now seconds.now) bytes.now at) }
    ensures out_after { out.new ≡ read_words (reading (counts_as firsts.now seconds.now) bytes.now at) out.old }
{
    let got = readings::read(bytes, at, firsts, seconds);
    put_reading(out, got)
}

// Reads a lone record in the same way: 1 to 8, or 0 and its seven words.
#[unsafe(no_mangle)]
pub extern "C" fn gm_read_lone(
    bytes: &[u8],
    firsts: &[u32],
    seconds: &[u32],
    out: &mut [u64; 7],
) -> u8
    ensures value { result ≡ read_code (reading_lone (counts_as firsts.now seconds.now) bytes.now) }
    ensures out_after { out.new ≡ read_words (reading_lone (counts_as firsts.now seconds.now) bytes.now) out.old }
{
    let got = readings::read_lone(bytes, firsts, seconds);
    put_reading(out, got)
}

// What the ticket desk may see of a lone record: 1 to 6, or 0 and four words: its kind, its own serial as stored, and where its roster's
// serials start and how many they are.
#[unsafe(no_mangle)]
pub extern "C" fn gm_read_desk(
    bytes: &[u8],
    firsts: &[u32],
    seconds: &[u32],
    out: &mut [u64; 4],
) -> u8
    ensures value { result ≡ sight_code (shown_to_desk (counts_as firsts.now seconds.now) bytes.now []).answer }
    ensures out_after { out.new ≡ shown_words (shown_to_desk (counts_as firsts.now seconds.now) bytes.now []) out.old }
    ensures bytes_after { result ≡ 0 → part_told out.new bytes.now ≡ (shown_to_desk (counts_as firsts.now seconds.now) bytes.now []).roster }
{
    let mut roster = &bytes[..0];
    match heads::read_desk(bytes, firsts, seconds, &mut roster) {
        Err(fault) => fault as u8,
        Ok(seen) => {
            let word = words::kind_word(seen.kind);
            let count = roster.len() / 4;
            let words = [word, seen.own.0 as u64, 6, count as u64];
            *out = words;
            0
        }
    }
}

// Whether the serials from a position on are those of a list: 1 or 0.
#[unsafe(no_mangle)]
pub extern "C" fn gm_roster_is(bytes: &[u8], at: usize, count: usize, list: &[u32]) -> u8
    ensures { result ≡ yes_code (roster_is bytes.now at count list.now) }
{
    let same = roster_bytes::roster_is(bytes, at, count, list);
    words::yes_code(same)
}

// Copies the serials from a position on into the front of a list: 1, or 0 where they are not all there or too many.
#[unsafe(no_mangle)]
pub extern "C" fn gm_copy_roster(bytes: &[u8], at: usize, count: usize, list: &mut [u32; 128]) -> u8
    ensures value { result ≡ yes_code (copiable bytes.now at count) }
    ensures list_after { list.new ≡ copied bytes.now at count list.old }
{
    let done = roster_bytes::copy_roster(bytes, at, count, list);
    words::yes_code(done)
}

// Writes a record from its parts: 2, 12, 3, 13, or 0 and where it ends.
#[unsafe(no_mangle)]
pub extern "C" fn gm_write_record(
    kind: u8,
    own: usize,
    roster: &[u32],
    mourned: &[u64; 2],
    out: &mut [u8],
    at: usize,
) -> End
    ensures value { result ≡ end_of (numbered (written_parts kind own roster.now (has (set_at mourned.now 0)) out.old at).answer) }
    ensures out_after { out.new ≡ (written_parts kind own roster.now (has (set_at mourned.now 0)) out.old at).buffer }
{
    let set = PlaceSet {
        low: mourned[0],
        high: mourned[1],
    };
    match kind {
        1 => {
            let answer = writes::write(Kind::Full, Place(own), roster, set, out, at);
            words::end_of(answer.map_err(|refusal| refusal as u8))
        }
        2 => {
            let answer = writes::write(Kind::Short, Place(own), roster, set, out, at);
            words::end_of(answer.map_err(|refusal| refusal as u8))
        }
        0 | 3..=255 => End {
            refusal: 2,
            next: 0,
        },
    }
}
