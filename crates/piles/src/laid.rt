// Matrices as bytes: a row of 16 bytes for each place. A history is lent with bytes 0xff past its rows, a buffer to be written with 0xaa.

fn byte(m: u32, n: usize, i: usize) -> u8 {
    if n <= i / 16 {
        return 0xff;
    }
    if i % 16 != 0 {
        return 0;
    }
    matrices::row(m, i / 16) as u8
}

// Lays a matrix.
pub fn lay(m: u32, n: usize, out: &mut [u8; 80]) {
    for (i, x) in out.iter_mut().enumerate() {
        *x = byte(m, n, i);
    }
}

// The matrix with a byte that was read, or with a mark that none has where it is not what a row can have or was not to be written.
fn with_byte(m: u32, n: usize, i: usize, x: u8) -> u32 {
    if n <= i / 16 {
        if x == 0xaa {
            return m;
        }
        return m | 0x10000;
    }
    if i % 16 != 0 {
        if x == 0 {
            return m;
        }
        return m | 0x20000;
    }
    if 15 < x {
        return m | 0x40000;
    }
    m | matrices::at_row(i / 16, x as u32)
}

// The matrix that was laid into a buffer; for no rows, 0 where nothing was.
pub fn read(n: usize, bytes: &[u8; 80]) -> u32 {
    let mut m = 0;
    for (i, x) in bytes.iter().enumerate() {
        m = with_byte(m, n, i, *x);
    }
    m
}
