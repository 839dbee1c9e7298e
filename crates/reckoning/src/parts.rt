// The first n of a list, or the whole where there are no more.

pub fn numbers(list: &[u32], n: usize) -> &[u32] {
    if n < list.len() {
        return &list[..n];
    }
    list
}

pub fn bytes(list: &[u8], n: usize) -> &[u8] {
    if n < list.len() {
        return &list[..n];
    }
    list
}

pub fn lent(buffer: &mut [u8], n: usize) -> &mut [u8] {
    if n < buffer.len() {
        return &mut buffer[..n];
    }
    buffer
}

// The same of arrays.

pub fn of_record(list: &[u8; 1100], n: usize) -> &[u8] {
    bytes(list, n)
}

pub fn of_buffer(list: &[u8; 80], n: usize) -> &[u8] {
    bytes(list, n)
}

pub fn of_six(list: &[u32; 6], n: usize) -> &[u32] {
    numbers(list, n)
}

pub fn of_many(list: &[u32; 130], n: usize) -> &[u32] {
    numbers(list, n)
}

pub fn of_listed(list: &[u32; 1024], n: usize) -> &[u32] {
    numbers(list, n)
}
