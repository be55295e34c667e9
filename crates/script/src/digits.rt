ghost use Rattle.std.specs.Prelude.{◌≡◌, ◌≤◌, IfSome};
ghost use Rattle.std.specs.Str.{all_ascii_digits};
ghost use Rattle.script.specs.Numbers.{all_hex, number_of, word_of};

// Whether every byte is a decimal digit.
fn all_digits(bytes: &[u8]) -> bool
    ensures { result ≡ all_ascii_digits bytes.now }
{
    bytes.iter().all(|b| b.is_ascii_digit())
}

// Whether every byte is a hexadecimal digit.
fn all_hex(bytes: &[u8]) -> bool
    ensures { result ≡ all_hex bytes.now }
{
    bytes.iter().all(|b| b.is_ascii_hexdigit())
}

// The number that the text writes in digits alone, if it is at most `most`.
pub fn number(text: &str, most: u32) -> Option<u32>
    ensures value { result ≡ number_of text.now most }
    ensures bound { IfSome result (λ n. n ≤ most) }
{
    if !all_digits(text.as_bytes()) {
        return None;
    }
    text.parse::<u32>().ok().filter(|n| *n <= most)
}

// The word that the text writes in exactly eight hexadecimal digits.
pub fn word(text: &str) -> Option<u32>
    ensures { result ≡ word_of text.now }
{
    if text.len() != 8 || !all_hex(text.as_bytes()) {
        return None;
    }
    u32::from_str_radix(text, 16).ok()
}
