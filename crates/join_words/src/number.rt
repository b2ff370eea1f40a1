// Numbers of one to seven decimal digits.
ghost use Rattle.std.specs.Prelude.{◌≡◌, ◌≤◌, true, option_map, IfSome};
ghost use Rattle.std.specs.List.{list_all};
ghost use Rattle.std.specs.Str.Parse.{digits_value};
ghost use Rattle.join_words.specs.Asks.{is_digit, is_number, number_in, number_or};

// The most digits that a number has.
const MOST_DIGITS: usize = 7;

fn are_digits(bytes: &[u8]) -> bool
    ensures { result ≡ list_all is_digit bytes.now }
{
    bytes.iter().all(|byte| *byte >= b'0' && *byte <= b'9')
}

fn is_numeral(bytes: &[u8]) -> bool
    ensures { result ≡ is_number bytes.now }
{
    bytes.len() >= 1 && bytes.len() <= MOST_DIGITS && are_digits(bytes)
}

fn value_of_digits(digits: &[u8]) -> u32
    requires { is_number digits.now ≡ true }
    ensures { result ≡ digits_value 10 digits.now }
{
    let mut value: u32 = 0;
    for digit in digits {
        value = value * 10 + u32::from(*digit - b'0');
    }
    value
}

// The number that this text writes, where it writes one from `low` to `high`.
pub fn number(text: &str, low: u32, high: u32) -> Option<u32>
    ensures number { result ≡ number_in low high text.now }
    ensures within { IfSome result (λ n. (low ≤ n) × (n ≤ high)) }
{
    if !is_numeral(text.as_bytes()) {
        return None;
    }
    let value = value_of_digits(text.as_bytes());
    if value >= low && value <= high {
        Some(value)
    } else {
        None
    }
}

// The number that this text writes, as `number` has it, and `default` where there is no text.
pub fn number_unless(text: Option<&str>, default: u32, low: u32, high: u32) -> Option<u32>
    requires { (low ≤ default) × (default ≤ high) }
    ensures number { result ≡ number_or default low high (option_map (λ s. s.now) text.entry) }
    ensures within { IfSome result (λ n. (low ≤ n) × (n ≤ high)) }
{
    match text {
        None => Some(default),
        Some(text) => number(text, low, high),
    }
}
