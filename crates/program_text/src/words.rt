// Words and numbers on standard output, for the programs that write by file descriptors.
// A word, and a number behind it.
pub fn say(word: &[u8], n: u64) {
    io::write_all(1, word);
    io::print_decimal(1, n);
}

// A word, and numbers behind it with a blank between two.
pub fn say_numbers(word: &[u8], all: &[u64]) {
    io::write_all(1, word);
    let mut i: usize = 0;
    while i < all.len() {
        if 0 < i {
            io::write_all(1, b" ");
        }
        io::print_decimal(1, all[i]);
        i += 1;
    }
}

// The same, as a whole line.
pub fn say_line(word: &[u8], all: &[u64]) {
    say_numbers(word, all);
    io::write_all(1, b"\n");
}

pub fn say_power(p: i32) {
    if p < 0 {
        let q = p as i64;
        let size = 0 - q;
        say(b"-", size as u64);
    } else {
        io::print_decimal(1, p as u64);
    }
}
