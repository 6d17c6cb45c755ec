// Numbers as a script writes them: in decimal digits, however many.
ghost use Rattle.std.specs.Prelude.{◌≡◌, ℕ, min, Bool, List, Option};
ghost use Rattle.script.specs.Decimals.{all_digits, digits_more, decimal_of, mark_of, file_of};

// A number of one digit or more; the largest that a `usize` holds stands for all above it.
pub fn decimal(word: &[u8]) -> Option<usize>
    ensures { result ≡ decimal_of word.now }
{
    if word.is_empty() || !are_digits(word) {
        return None;
    }
    Some(value_of(word))
}

// A file's number, behind a `#`.
pub fn file_number(word: &[u8]) -> Option<usize>
    ensures { result ≡ file_of word.now }
{
    decimal(word.strip_prefix(b"#")?)
}

// A file's mark: a number of 32 bits.
pub fn mark(word: &[u8]) -> Option<u32>
    ensures { result ≡ mark_of word.now }
{
    u32::try_from(decimal(word)?).ok()
}

fn are_digits(word: &[u8]) -> bool
    ensures { result ≡ all_digits word.now }
{
    word.iter().all(u8::is_ascii_digit)
}

// What digits are worth, as far as a `usize` goes.
fn value_of(digits: &[u8]) -> usize
    ensures { result ≡ min (digits_more 0 digits.now) 18446744073709551615 }
{
    digits.iter().fold(0, |value: usize, digit| {
        value
            .saturating_mul(10)
            .saturating_add(usize::from(digit.saturating_sub(b'0')))
    })
}
