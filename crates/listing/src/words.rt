// What the lines are put together from: numbers and texts.
ghost use Rattle.std.specs.List.{position};
ghost use Rattle.std.specs.Prelude.{not, ◌≡◌, ℕ, ◌%◌, Bool, List, [], ◌∷◌, decimal};
ghost use Rattle.listing.specs.Listing.{hex_digit, hex2, hex8, plain_byte, escaped, shown, every, plain_len, spaced, numbers, Puts};

use itoa::Buffer;
use std::alloc::AllocError;

// Puts bytes as they are. Its promise is one equation, where that of `extend_from_slice` speaks of clones.
pub(crate) fn put(out: &mut Vec<u8>, part: &[u8]) -> Result<(), AllocError>
    ensures { Puts result out.old out.new part.now }
{
    out.extend_from_slice(part)
}

// Puts a number in decimal digits.
pub(crate) fn put_number(out: &mut Vec<u8>, n: usize) -> Result<(), AllocError>
    ensures { Puts result out.old out.new (decimal n) }
{
    put(out, Buffer::new().format(n).as_bytes())
}

// Puts numbers, each after a space.
pub(crate) fn put_numbers(out: &mut Vec<u8>, all: &[usize]) -> Result<(), AllocError>
    ensures { Puts result out.old out.new (numbers all.now) }
{
    for n in all {
        out.push(b' ')?;
        put_number(out, *n)?;
    }
    Ok(())
}

// The last hexadecimal digit of a number.
fn hex_digit(n: u8) -> u8
    ensures { result ≡ hex_digit (n % 16) }
{
    let d = n % 16;
    if d < 10 { b'0' + d } else { b'a' - 10 + d }
}

// Puts a number in eight hexadecimal digits. A `format!` would allocate a text of its own.
pub(crate) fn put_hex(out: &mut Vec<u8>, n: u32) -> Result<(), AllocError>
    ensures { Puts result out.old out.new (hex8 n) }
{
    for b in n.to_be_bytes() {
        put_hex_byte(out, b)?;
    }
    Ok(())
}

// Puts a byte in two hexadecimal digits.
fn put_hex_byte(out: &mut Vec<u8>, n: u8) -> Result<(), AllocError>
    ensures { Puts result out.old out.new (hex2 n) }
{
    out.push(hex_digit(n / 16))?;
    out.push(hex_digit(n))?;
    Ok(())
}

// Whether a byte stands for itself.
fn is_plain(b: u8) -> bool
    ensures { result ≡ plain_byte b }
{
    matches!(b, b' '..=b'~') && b != b'\\'
}

// The place of the first byte that does not stand for itself.
fn first_escaped(text: &[u8]) -> Option<usize>
    ensures { result ≡ position (λ b. not (plain_byte b)) text.now }
{
    text.iter().position(|b| !is_plain(*b))
}

// Puts a byte that does not stand for itself.
fn put_escaped(out: &mut Vec<u8>, b: u8) -> Result<(), AllocError>
    ensures { Puts result out.old out.new (escaped b) }
{
    if b == b'\\' {
        return put(out, b"\\\\");
    }
    put(out, b"\\x")?;
    put_hex_byte(out, b)
}

// Whether each byte stands for itself. All are looked at, many at a time, which `all` cannot do.
fn is_all_plain(text: &[u8]) -> bool
    ensures { result ≡ every plain_byte text.now }
{
    text.iter().fold(true, |all, b| all & is_plain(*b))
}

// Puts a text, each run of plain bytes at once.
fn put_shown(out: &mut Vec<u8>, text: &[u8]) -> Result<(), AllocError>
    ensures { Puts result out.old out.new (shown text.now) }
{
    let mut rest = text;
    while let Some(n) = first_escaped(rest) {
        put(out, &rest[..n])?;
        put_escaped(out, rest[n])?;
        rest = &rest[n + 1..];
    }
    put(out, rest)
}

// Puts a text after a space, and nothing for an empty one.
pub(crate) fn put_text(out: &mut Vec<u8>, text: &[u8]) -> Result<(), AllocError>
    ensures { Puts result out.old out.new (spaced text.now) }
{
    if text.is_empty() {
        return Ok(());
    }
    out.push(b' ')?;
    if is_all_plain(text) {
        return put(out, text);
    }
    put_shown(out, text)
}
