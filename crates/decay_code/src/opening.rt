// The record of a passage that opens code j.
ghost use Rattle.std.specs.Prelude.{◌≡◌, cond, ◌-◌, ◌≤◌, eqb};
ghost use Rattle.paper_codes.specs.Opening.{opening_of};

// How many openings are left behind a record with this byte in column 12.
fn left_behind(left: u32, b: u8) -> u32
    requires { 1 ≤ left }
    ensures { result ≡ cond (eqb b 40) (left - 1) left }
{
    if b == b'(' { left - 1 } else { left }
}

// The index of the record; how many records there are where no record opens code j.
pub fn opening(passage: &[u8], j: u32) -> usize
    ensures { result ≡ opening_of passage.now j }
{
    let n = passage.len() / 81;
    if j == 0 {
        return n;
    }
    let mut left = j;
    for i in 0..n {
        let at = i * 81 + 11;
        let b = passage[at];
        let behind = left_behind(left, b);
        if behind == 0 {
            return i;
        }
        left = behind;
    }
    n
}
