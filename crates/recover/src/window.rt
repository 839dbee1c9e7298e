// The input, seen through a window: a lent buffer whose bytes from `at` up to `have` were read and not passed yet.
ghost use Rattle.std.specs.Prelude.{◌≡◌, false, ◌≤◌, length, IfOk, OnErr};
ghost use Rattle.recover.specs.Windows.{ahead, Inside, Enough, StartsWith};

use std::io::{self, Read, Stdin};

// `ended`: the input has no bytes behind these.
#[derive(Clone, Copy)]
pub struct Window {
    pub at: usize,
    pub have: usize,
    pub ended: bool,
}

// Nothing was read yet.
pub fn start() -> Window
    ensures { (result.at ≡ 0) × (result.have ≡ 0) }
{
    Window {
        at: 0,
        have: 0,
        ended: false,
    }
}

// The bytes before a position are passed.
pub fn past(w: Window, next: usize) -> Window
    ensures { (result.at ≡ next) × (result.have ≡ w.have) × (result.ended ≡ w.ended) }
{
    Window {
        at: next,
        have: w.have,
        ended: w.ended,
    }
}

// Reads until the buffer is full or the input has ended, and says how many bytes came.
fn read_full(from: Stdin, buf: &mut [u8]) -> io::Result<usize>
    ensures { IfOk result (λ n. n ≤ length buf.new) }
{
    // `read_exact` fails where the input ends early, and tells no count
    let mut input = from;
    let mut done = 0;
    while done < buf.len() {
        let n = input.read(&mut buf[done..])?;
        if n == 0 {
            break;
        }
        done += n;
    }
    Ok(done)
}

// What is left goes to the front, and the input is read on behind it, until the buffer is full or the input has ended. Where a
// read fails, what is left is at the front.
fn refill(from: Stdin, buf: &mut [u8], w: Window) -> io::Result<Window>
    requires { Inside w buf.old }
    ensures inside { IfOk result (λ v. Inside v buf.new) }
    ensures starts_with { IfOk result (λ v. StartsWith (ahead w buf.old) (ahead v buf.new)) }
    ensures buf_len { IfOk result (λ v. v.ended ≡ false → length (ahead v buf.new) ≡ length buf.old) }
    ensures err { OnErr result (StartsWith (ahead w buf.old) buf.new) }
{
    let at = w.at;
    let left = w.have - at;
    buf.copy_within(at..w.have, 0);
    let more = read_full(from, &mut buf[left..])?;
    let end = left + more;
    Ok(Window {
        at: 0,
        have: end,
        ended: end < buf.len(),
    })
}

// The window with a whole record in it, even the longest of 1,031 bytes, unless the input ends before that. What was ahead stays
// ahead, and where a read fails, it is at the front.
pub(crate) fn ready(from: Stdin, buf: &mut [u8], w: Window) -> io::Result<Window>
    requires inside { Inside w buf.old }
    requires in_bounds { 1031 ≤ length buf.old }
    ensures inside_2 { IfOk result (λ v. Inside v buf.new) }
    ensures starts_with { IfOk result (λ v. StartsWith (ahead w buf.old) (ahead v buf.new)) }
    ensures enough { IfOk result (λ v. v.ended ≡ false → Enough v buf.new) }
    ensures err { OnErr result (StartsWith (ahead w buf.old) buf.new) }
{
    if w.ended {
        return Ok(w);
    }
    if 1031 <= w.have - w.at {
        return Ok(w);
    }
    refill(from, buf, w)
}
