// Decimal numbers read from a text.
ghost use Rattle.std.specs.Prelude.{◌≡◌, min, length};
ghost use Rattle.std.proofs.lemmas.List.Edits.{sets};
ghost use Rattle.text.specs.Numbers.{with_digit, number, numbers_in};

// n with a digit behind it; what is too large for 32 bits is the largest number of these.
fn with_digit(n: u32, byte: u8) -> u32
    ensures { result ≡ with_digit n byte }
{
    let digit = byte.saturating_sub(b'0');
    n.saturating_mul(10).saturating_add(digit as u32)
}

// The number that digits make.
fn number(digits: &[u8]) -> u32
    ensures { result ≡ number digits.now }
{
    digits.iter().fold(0, |n, byte| with_digit(n, *byte))
}

// Puts the numbers of a text, as many as there is room for, and yields how many that were.
pub fn read(text: &[u8], out: &mut [u32]) -> usize
    ensures count { result ≡ min (length (numbers_in text.now)) (length out.old) }
    ensures numbers { out.new ≡ sets out.old 0 (numbers_in text.now) }
{
    let mut count: usize = 0;
    for digits in text.split(|byte| !byte.is_ascii_digit()) {
        if !digits.is_empty() && count < out.len() {
            out[count] = number(digits);
            count += 1;
        }
    }
    count
}
