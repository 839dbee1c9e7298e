// What is printed.
use std::io::{self, Stdout};

pub fn text(to: Stdout, words: &[u8]) -> io::Result<()> {
    to.write_all(words)
}

pub fn number(to: Stdout, n: u64) -> io::Result<()> {
    to.print(n)
}
