// What the libraries for C have in common: the nine words of a recovery, where a written record ends, and kinds and tests as numbers.
#![tactic(auto)]

ghost use Rattle.std.specs.Prelude.{◌≡◌, get_or};
ghost use Rattle.layouts.specs.Layout.{kind_byte};
ghost use Rattle.boundary.specs.Words.{yes_code, end_of, set_at, set_words};
ghost use Rattle.boundary.specs.Recoveries.{head_words};

use boundary::{End, Head};
use histories::Kind;
use sets::PlaceSet;

// A kind as a word: 1 full, 2 short.
pub fn kind_word(kind: Kind) -> u64
    ensures { result ≡ kind_byte kind }
{
    kind as u64
}

// Whether or not: 1 or 0.
pub fn yes_code(b: bool) -> u8
    ensures { result ≡ yes_code b }
{
    b as u8
}

// The refusal and 0, or 0 and where the record ends.
pub fn end_of(answer: Result<usize, u8>) -> End
    ensures { result ≡ end_of answer }
{
    match answer {
        Ok(end) => End {
            refusal: 0,
            next: end as u64,
        },
        Err(fault) => End {
            refusal: fault as u64,
            next: 0,
        },
    }
}

// A word of a list, 0 past its end.
fn word(list: &[u64], k: usize) -> u64
    ensures { result ≡ get_or list.now k 0 }
{
    if k < list.len() {
        return list[k];
    }
    0
}

// What the nine words of a recovery say; a word that is not there says 0.
pub fn read_head(head: &[u64]) -> Head
    ensures count_value { result.count ≡ get_or head.now 0 0 }
    ensures returned_value { result.returned ≡ set_at head.now 1 }
    ensures full_value { result.full ≡ set_at head.now 3 }
    ensures mourned_value { result.mourned ≡ set_at head.now 5 }
    ensures earlier_value { result.earlier ≡ set_at head.now 7 }
{
    let returned = PlaceSet {
        low: word(head, 1),
        high: word(head, 2),
    };
    let full = PlaceSet {
        low: word(head, 3),
        high: word(head, 4),
    };
    let mourned = PlaceSet {
        low: word(head, 5),
        high: word(head, 6),
    };
    let earlier = PlaceSet {
        low: word(head, 7),
        high: word(head, 8),
    };
    Head {
        count: word(head, 0) as usize,
        returned,
        full,
        mourned,
        earlier,
    }
}

// The nine words of a recovery are set.
pub fn write_head(head: &mut [u64; 9], h: Head)
    ensures { head.new ≡ head_words h.count h.returned h.full h.mourned h.earlier }
{
    let returned = h.returned;
    let full = h.full;
    let mourned = h.mourned;
    let earlier = h.earlier;
    let words = [
        h.count as u64,
        returned.low,
        returned.high,
        full.low,
        full.high,
        mourned.low,
        mourned.high,
        earlier.low,
        earlier.high,
    ];
    *head = words;
}

// Two words of places.
pub fn put_set(out: &mut [u64; 2], s: PlaceSet)
    ensures { out.new ≡ set_words s }
{
    let pair = [s.low, s.high];
    *out = pair;
}
