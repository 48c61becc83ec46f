// Packed decimal digits, four bits each: whether n of them are, the number that they stand for, and back. Sum and difference of eight.
ghost use Rattle.std.specs.Prelude.{◌≡◌, ◌<◌, ◌≤◌, ◌&&◌};
ghost use Rattle.sock.specs.Digits.{decimal, number_of, packed_of, digit_sum, digit_difference};
ghost use Rattle.sock.specs.Evaluation.{of_digits};
ghost use Rattle.evaluating.specs.Valuing.{value_as};

// Whether none of the last n digits is above 9.
fn decimal_digits(p: u32, n: usize) -> bool
    ensures { result ≡ decimal n p }
{
    if n == 0 {
        return true;
    }
    if p % 16 < 10 {
        return decimal_digits(p / 16, n - 1);
    }
    false
}

// The number of the last n digits.
fn number_of(p: u32, n: usize) -> u32
    ensures { (result ≡ number_of n p) × (result ≤ p) }
{
    if n == 0 {
        return 0;
    }
    number_of(p / 16, n - 1) * 10 + p % 16
}

// The last n digits of a number, at most eight.
fn packed_of(v: u32, n: usize) -> u32
    requires { n ≤ 8 }
    ensures { result ≡ packed_of n v }
{
    if n == 0 {
        return 0;
    }
    packed_of(v / 10, n - 1) * 16 + v % 10
}

fn both_decimal(a: u32, b: u32) -> bool
    ensures { result ≡ (decimal 8 a && decimal 8 b) }
{
    if decimal_digits(a, 8) {
        return decimal_digits(b, 8);
    }
    false
}

// All the values that eight digits have.
const ALL: u32 = 100000000;

// Sum and difference modulo 100,000,000; none where a digit is above 9.
pub fn decimal_sum(a: u32, b: u32) -> Option<u32>
    ensures { result ≡ value_as (of_digits a b (digit_sum 8 a b)) }
{
    if both_decimal(a, b) {
        return Some(packed_of((number_of(a, 8) + number_of(b, 8)) % ALL, 8));
    }
    None
}

pub fn decimal_difference(a: u32, b: u32) -> Option<u32>
    ensures { result ≡ value_as (of_digits a b (digit_difference 8 a b)) }
{
    if both_decimal(a, b) {
        return Some(packed_of((number_of(a, 8) + ALL - number_of(b, 8)) % ALL, 8));
    }
    None
}
