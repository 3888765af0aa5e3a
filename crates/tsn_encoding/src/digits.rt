//! The decimal digits of a number, put into bytes from a place on. What stands behind the digits may change.
//!
//! Two digits at a time are read from a table, the front of the number first.
ghost use Rattle.std.specs.Prelude.{◌≡◌, ◌+◌, ◌<◌, ◌≤◌, ◌++◌, length, take, decimal};
ghost use Rattle.tsn_encoding.specs.Digits.{two_digits, four_digits, eight_digits};

// The two digits of each number below 100, one number behind the other.
static PAIRS: [u8; 200] =
    *b"00010203040506070809101112131415161718192021222324252627282930313233343536373839404142434445464748495051525354555657585960616263646566676869707172737475767778798081828384858687888990919293949596979899";

// Puts two digits, which may begin with a 0.
#[inline]
fn put_two(bytes: &mut [u8], at: usize, number: u64)
    requires below { number < 100 }
    requires room { at + 2 ≤ length bytes.old }
    ensures { take (at + 2) bytes.new ≡ take at bytes.old ++ two_digits number }
{
    let from = 2 * number as usize;
    bytes[at] = PAIRS[from];
    bytes[at + 1] = PAIRS[from + 1];
}

// Puts four digits, which may begin with a 0.
#[inline]
fn put_four(bytes: &mut [u8], at: usize, number: u64)
    requires below { number < 10000 }
    requires room { at + 4 ≤ length bytes.old }
    ensures { take (at + 4) bytes.new ≡ take at bytes.old ++ four_digits number }
{
    put_two(bytes, at, number / 100);
    put_two(bytes, at + 2, number % 100);
}

// Puts eight digits, which may begin with a 0.
#[inline]
fn put_eight(bytes: &mut [u8], at: usize, number: u64)
    requires below { number < 100000000 }
    requires room { at + 8 ≤ length bytes.old }
    ensures { take (at + 8) bytes.new ≡ take at bytes.old ++ eight_digits number }
{
    put_four(bytes, at, number / 10_000);
    put_four(bytes, at + 4, number % 10_000);
}

// Puts a number below 100, and returns where it ends.
#[inline]
fn put_up_to_two(bytes: &mut [u8], at: usize, number: u64) -> usize
    requires below { number < 100 }
    requires room { at + 2 ≤ length bytes.old }
    ensures text { take result bytes.new ≡ take at bytes.old ++ decimal number }
    ensures end { result ≤ at + 2 }
{
    if number < 10 {
        bytes[at] = b'0' + number as u8;
        return at + 1;
    }
    put_two(bytes, at, number);
    at + 2
}

// Puts a number of up to four digits, and returns where it ends.
#[inline]
fn put_up_to_four(bytes: &mut [u8], at: usize, number: u64) -> usize
    requires below { number < 10000 }
    requires room { at + 4 ≤ length bytes.old }
    ensures text { take result bytes.new ≡ take at bytes.old ++ decimal number }
    ensures end { result ≤ at + 4 }
{
    if number < 100 {
        return put_up_to_two(bytes, at, number);
    }
    let middle = put_up_to_two(bytes, at, number / 100);
    put_two(bytes, middle, number % 100);
    middle + 2
}

// Puts a number of up to eight digits, and returns where it ends.
#[inline(always)]
fn put_up_to_eight(bytes: &mut [u8], at: usize, number: u64) -> usize
    requires below { number < 100000000 }
    requires room { at + 8 ≤ length bytes.old }
    ensures text { take result bytes.new ≡ take at bytes.old ++ decimal number }
    ensures end { result ≤ at + 8 }
{
    if number < 10_000 {
        return put_up_to_four(bytes, at, number);
    }
    let middle = put_up_to_four(bytes, at, number / 10_000);
    put_four(bytes, middle, number % 10_000);
    middle + 4
}

// Puts a number of up to twelve digits, and returns where it ends.
#[inline]
fn put_up_to_twelve(bytes: &mut [u8], at: usize, number: u64) -> usize
    requires below { number < 1000000000000 }
    requires room { at + 12 ≤ length bytes.old }
    ensures text { take result bytes.new ≡ take at bytes.old ++ decimal number }
    ensures end { result ≤ at + 12 }
{
    if number < 100_000_000 {
        return put_up_to_eight(bytes, at, number);
    }
    let middle = put_up_to_four(bytes, at, number / 100_000_000);
    put_eight(bytes, middle, number % 100_000_000);
    middle + 8
}

// Puts a number of more than eight digits, and returns where it ends.
#[inline(never)]
fn put_long(bytes: &mut [u8], at: usize, number: u64) -> usize
    requires above { 100000000 ≤ number }
    requires room { at + 20 ≤ length bytes.old }
    ensures text { take result bytes.new ≡ take at bytes.old ++ decimal number }
    ensures end { result ≤ at + 20 }
{
    let middle = put_up_to_twelve(bytes, at, number / 100_000_000);
    put_eight(bytes, middle, number % 100_000_000);
    middle + 8
}

/// Puts a number, and returns where it ends. There must be room for 20 digits.
#[inline(always)]
pub fn put_number(bytes: &mut [u8], at: usize, number: u64) -> usize
    requires { at + 20 ≤ length bytes.old }
    ensures text { take result bytes.new ≡ take at bytes.old ++ decimal number }
    ensures end { result ≤ at + 20 }
{
    if number < 100_000_000 {
        put_up_to_eight(bytes, at, number)
    } else {
        put_long(bytes, at, number)
    }
}
