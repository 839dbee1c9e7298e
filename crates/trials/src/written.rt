// What was written into a lent buffer that had the byte 0xaa everywhere.

fn expected(made: &[u8], at: usize, i: usize) -> u8 {
    if i < at {
        return 0xaa;
    }
    if i - at < made.len() {
        return made[i - at];
    }
    0xaa
}

// Whether a buffer has these bytes from a position on, and was not touched elsewhere.
pub fn has_only(bytes: &[u8], at: usize, made: &[u8]) -> bool {
    bytes
        .iter()
        .enumerate()
        .all(|(i, x)| *x == expected(made, at, i))
}
