// What a line finds: bytes to read, the group's first and second serials, and whether serials are multiples of 65536.

// A list of serials.
#[derive(Clone, Copy)]
pub struct Serials {
    pub count: usize,
    pub of: [u32; 300],
}

#[derive(Clone, Copy)]
pub struct Stage {
    pub wide: bool,
    pub length: usize,
    pub bytes: [u8; 1100],
    pub firsts: Serials,
    pub seconds: Serials,
}

pub fn none() -> Stage {
    let serials = Serials {
        count: 0,
        of: [0; 300],
    };
    Stage {
        wide: false,
        length: 0,
        bytes: [0; 1100],
        firsts: serials,
        seconds: serials,
    }
}

// The serials of a section.
pub fn listed(s: Stage, words: &[u8], k: usize) -> Serials {
    let mut of = [0u32; 300];
    let count = scripts::serials(scripts::section(words, k), s.wide, &mut of);
    Serials { count, of }
}

pub fn unit(s: Stage, words: &[u8]) -> Stage {
    let mut next = s;
    next.wide = scripts::is_wide(words);
    next
}

pub fn firsts(s: Stage, words: &[u8]) -> Stage {
    let list = listed(s, words, 0);
    let mut next = s;
    next.firsts = list;
    next
}

pub fn given(s: Stage, words: &[u8]) -> Stage {
    let list = listed(s, words, 0);
    let mut next = s;
    next.seconds = list;
    next
}

pub fn with(s: Stage, bytes: [u8; 1100], length: usize) -> Stage {
    let mut next = s;
    next.bytes = bytes;
    next.length = length;
    next
}

// The bytes that a line spells.
pub fn bytes(s: Stage, words: &[u8]) -> Stage {
    let mut spelled = [0u8; 1100];
    let length = scripts::bytes(scripts::section(words, 0), &mut spelled);
    with(s, spelled, length)
}

// The record that a line describes.
pub fn make(s: Stage, words: &[u8]) -> Stage {
    let mut made = [0u8; 1100];
    let length = scripts::lay(words, s.wide, &mut made);
    with(s, made, length)
}

// One byte changed.
pub fn patch(s: Stage, words: &[u8]) -> Stage {
    let said = scripts::numbers(scripts::section(words, 0));
    let at = scripts::number(said, 0) as usize;
    let mut next = s;
    if at < 1100 {
        next.bytes[at] = (scripts::number(said, 1) % 256) as u8;
    }
    next
}

// The first so many bytes.
pub fn trim(s: Stage, words: &[u8]) -> Stage {
    let said = scripts::numbers(scripts::section(words, 0));
    let mut next = s;
    next.length = scripts::number(said, 0) as usize;
    next
}
