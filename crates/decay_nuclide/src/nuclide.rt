// One character of the flag and the nuclide.
ghost use Rattle.std.specs.Prelude.{◌≡◌};
ghost use Rattle.paper_decay.specs.Scan.{standing, nowhere, digits_next, head, first_digit, before_nuclide, flag_digits};
ghost use Rattle.paper_decay.specs.Scan.{flag_step, digits_step, symbol_step, nuclide_step, head_step, head_whole};

use decay_states::states::{is_capital, is_digit, nowhere, standing, to_if};
use paper_decay::types::Scan;

// Digits of Z or A with one more: at most three, and a zero only alone; 0 where it cannot be.
fn digits_next(count: u8, b: u8) -> u8
    ensures { result ≡ digits_next count b }
{
    if is_digit(b) {
        if count == 0 {
            if b == b'0' {
                return 3;
            }
            return 1;
        }
        if count < 3 {
            return count + 1;
        }
        return 0;
    }
    0
}

// In the flag and the nuclide.
pub fn head(inner: u8, count: u8) -> Scan
    ensures { result ≡ head inner count }
{
    standing(0, inner, count, false, false)
}

// The first digit of Z.
fn first_digit(b: u8) -> Scan
    ensures { result ≡ first_digit b }
{
    let n = digits_next(0, b);
    if n == 0 {
        return nowhere();
    }
    head(5, n)
}

// Blanks before the nuclide, or its first digit.
fn before_nuclide(b: u8) -> Scan
    ensures { result ≡ before_nuclide b }
{
    if b == b' ' {
        return head(4, 0);
    }
    first_digit(b)
}

fn in_flag_digits(count: u8, b: u8) -> Scan
    ensures { result ≡ flag_digits count b }
{
    if is_digit(b) {
        if count < 10 {
            return head(2, count + 1);
        }
        return nowhere();
    }
    if count == 0 {
        return nowhere();
    }
    to_if(b == b'.', head(3, 0))
}

// 0 before the code, 1 behind its parenthesis, 2 in the flag's digits, 3 behind its point, 4 behind the flag.
fn in_flag(inner: u8, count: u8, b: u8) -> Scan
    ensures { result ≡ flag_step inner count b }
{
    if inner == 0 {
        return to_if(b == b'(', head(1, 0));
    }
    if inner == 1 {
        if b == b'(' {
            return head(2, 0);
        }
        return before_nuclide(b);
    }
    if inner == 2 {
        return in_flag_digits(count, b);
    }
    if inner == 4 {
        return before_nuclide(b);
    }
    nowhere()
}

// Digits of Z (5) or A (7), and the hyphen behind them.
fn in_digits(inner: u8, count: u8, b: u8, next: u8) -> Scan
    ensures { result ≡ digits_step inner count b next }
{
    let n = digits_next(count, b);
    if n != 0 {
        return head(inner, n);
    }
    if count == 0 {
        return nowhere();
    }
    to_if(b == b'-', head(next, 0))
}

fn in_symbol(count: u8, b: u8) -> Scan
    ensures { result ≡ symbol_step count b }
{
    if is_capital(b) {
        if count < 2 {
            return head(6, count + 1);
        }
        return nowhere();
    }
    if count == 0 {
        return nowhere();
    }
    to_if(b == b'-', head(7, 0))
}

// 5 in Z, 6 in S, 7 in A, 8 behind the hyphen of the isomer, 9 behind M, 10 behind G, M1 or M2.
fn in_nuclide(inner: u8, count: u8, b: u8) -> Scan
    ensures { result ≡ nuclide_step inner count b }
{
    if inner == 5 {
        return in_digits(5, count, b, 6);
    }
    if inner == 6 {
        return in_symbol(count, b);
    }
    if inner == 7 {
        return in_digits(7, count, b, 8);
    }
    if inner == 8 {
        if b == b'M' {
            return head(9, 0);
        }
        return to_if(b == b'G', head(10, 0));
    }
    if inner == 9 {
        if b == b'1' {
            return head(10, 0);
        }
        return to_if(b == b'2', head(10, 0));
    }
    nowhere()
}

pub fn in_head(inner: u8, count: u8, b: u8) -> Scan
    ensures { result ≡ head_step inner count b }
{
    if inner < 5 {
        return in_flag(inner, count, b);
    }
    in_nuclide(inner, count, b)
}

pub fn head_whole(inner: u8, count: u8) -> bool
    ensures { result ≡ head_whole inner count }
{
    if inner == 7 {
        return 0 < count;
    }
    if inner == 9 {
        return true;
    }
    inner == 10
}
