// How many digits were written in a field.
ghost use Rattle.std.specs.Prelude.{◌≡◌, ◌<◌, ◌^◌};
ghost use Rattle.paper_number.specs.Count.{significant};

use paper_number::types::Reading;

// Of a number below 100,000. A few tests in place of a loop: it is done for every value that is asked for.
fn few_digits(n: u64) -> u8
    requires { n < 10 ^ 5 }
    ensures { result ≡ significant n }
{
    if n < 10 {
        if n == 0 {
            return 0;
        }
        return 1;
    }
    if n < 1000 {
        if n < 100 {
            return 2;
        }
        return 3;
    }
    if n < 10000 {
        return 4;
    }
    5
}

// How many digits a number of eleven columns has; 0 has none.
pub fn significant_digits(n: u64) -> u8
    requires { n < 10 ^ 11 }
    ensures { result ≡ significant n }
{
    if n < 100000 {
        return few_digits(n);
    }
    if n < 10000000 {
        if n < 1000000 {
            return 6;
        }
        return 7;
    }
    if n < 1000000000 {
        if n < 100000000 {
            return 8;
        }
        return 9;
    }
    if n < 10000000000 {
        return 10;
    }
    11
}
