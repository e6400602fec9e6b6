//! Numbers that digits spell.

ghost use Rattle.std.specs.Prelude.{◌≡◌, ◌≤◌, ◌<◌, ◌^◌, true, length};
ghost use Rattle.std.specs.Char.{digit_value, is_ascii_digit};
ghost use Rattle.std.specs.List.{list_all};
ghost use Rattle.std.specs.Str.Parse.{digits_value};

/// True exactly if each byte is a digit, as of no bytes.
pub fn all_digits(text: &[u8]) -> bool
    ensures { result ≡ list_all is_ascii_digit text.now }
{
    text.iter().all(|b| b.is_ascii_digit())
}

/// Gives the number that at most ten digits spell in decimal.
pub fn number_of_digits(digits: &[u8]) -> u64
    requires few { length digits.now ≤ 10 }
    requires digits { list_all is_ascii_digit digits.now ≡ true }
    ensures value { result ≡ digits_value 10 digits.now }
    ensures small { result < 10 ^ 10 }
    ensures width { result < 10 ^ length digits.now }
{
    let mut number = 0;
    for b in digits {
        number = number * 10 + digit(*b);
    }
    number
}

/// The value of a digit.
pub(crate) fn digit(b: u8) -> u64
    requires { is_ascii_digit b ≡ true }
    ensures value { result ≡ digit_value b }
    ensures small { result < 10 }
{
    u64::from(b - b'0')
}
