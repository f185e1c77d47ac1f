//! Numbers in the head of a record, read digit by digit: neither is their tab searched for, nor are they held as texts.

ghost use Rattle.std.specs.Prelude.{◌≡◌, ◌<◌, ◌^◌, ◌+◌, ◌*◌, ◌∷◌, [], ◌++◌, IfSome, IsTrue, decimal};
ghost use Rattle.std.specs.Str.{IsUtf8};
ghost use Rattle.log_text.specs.Line.{field_and_tab};
ghost use Rattle.seen_log.specs.Digits.{AreDigits, IsDigit};

/// The number whose field stands in front, and what stands behind its tab.
#[inline(always)]
pub(crate) fn number_in(bytes: &[u8]) -> Option<(u64, &[u8])>
    ensures number { IfSome result (λ parts. bytes.now ≡ field_and_tab (decimal parts.0) ++ parts.1.now) }
    ensures utf8 { IfSome result (λ parts. IsUtf8 (decimal parts.0)) }
    ensures low { IfSome result (λ parts. parts.0 < 2 ^ 64) }
{
    let (number, rest) = decimal_in(bytes)?;
    let after = behind_tab(rest)?;
    Some((number, after))
}

/// The number whose digits stand in front, and what stands behind the last of them.
#[inline(always)]
fn decimal_in(bytes: &[u8]) -> Option<(u64, &[u8])>
    ensures digits { IfSome result (λ parts. bytes.now ≡ decimal parts.0 ++ parts.1.now) }
    ensures low { IfSome result (λ parts. parts.0 < 2 ^ 64) }
{
    let (first, after) = digit_in(bytes)?;
    if first == 0 {
        return Some((0, after));
    }
    let (more, after) = eights_in(first, after);
    let mut number = more;
    let mut rest = after;
    'digits: while let Some((digit, after)) = digit_in(rest) {
        number = with_digit(number, digit)?;
        rest = after;
    }
    Some((number, rest))
}

/// The number whose digits are those of this one, which is not 0, and as many more as stand in front, eight at a time, twice at most, and
/// what stands behind these. Stamps have nineteen, and no number of so few is too large, so what comes of them is not looked at each time.
#[inline(always)]
fn eights_in(number: u64, bytes: &[u8]) -> (u64, &[u8])
    requires some { 0 < number }
    requires low { number < 10 }
    ensures digits { decimal number ++ bytes.now ≡ decimal result.0 ++ result.1.now }
    ensures some { 0 < result.0 }
    ensures low { result.0 < 2 ^ 64 }
{
    let Some((nine, after)) = eight_in(number, bytes) else {
        return (number, bytes);
    };
    match eight_in(nine, after) {
        Some(more) => more,
        None => (nine, after),
    }
}

/// The number whose digits are those of this one, which is not 0, and the eight in front, if so many stand there, and what stands behind
/// them.
#[inline(always)]
fn eight_in(number: u64, bytes: &[u8]) -> Option<(u64, &[u8])>
    requires some { 0 < number }
    requires few { number < 1000000000 }
    ensures digits { IfSome result (λ more. decimal number ++ bytes.now ≡ decimal more.0 ++ more.1.now) }
    ensures some { IfSome result (λ more. 0 < more.0) }
    ensures few { IfSome result (λ more. more.0 < (number + 1) * 100000000) }
{
    let [a, b, c, d, e, f, g, h, after @ ..] = bytes else {
        return None;
    };
    // all are looked at at once, and none by a branch of its own
    if !(are_digits(*a, *b, *c, *d) & are_digits(*e, *f, *g, *h)) {
        return None;
    }
    let four = four_more(number, *a, *b, *c, *d);
    let eight = four_more(four, *e, *f, *g, *h);
    Some((eight, after))
}

/// Whether these four are digits.
#[inline(always)]
fn are_digits(a: u8, b: u8, c: u8, d: u8) -> bool
    ensures { IsTrue result → AreDigits a b c d }
{
    is_digit(a) & is_digit(b) & is_digit(c) & is_digit(d)
}

/// Whether a byte is a digit.
#[inline(always)]
fn is_digit(byte: u8) -> bool
    ensures { IsTrue result → IsDigit byte }
{
    (b'0' <= byte) & (byte <= b'9')
}

/// The number whose digits are those of this one, which is not 0, and these four.
#[inline(always)]
fn four_more(number: u64, a: u8, b: u8, c: u8, d: u8) -> u64
    requires some { 0 < number }
    requires few { number < 100000000000000 }
    requires digits { AreDigits a b c d }
    ensures digits { decimal result ≡ decimal number ++ a ∷ b ∷ c ∷ d ∷ [] }
    ensures some { 0 < result }
    ensures few { result < (number + 1) * 10000 }
{
    let one = and_digit(number, a);
    let two = and_digit(one, b);
    let three = and_digit(two, c);
    and_digit(three, d)
}

/// The number whose last digit is this one and whose others are those of a number that is not 0, and has few.
#[inline(always)]
fn and_digit(number: u64, digit: u8) -> u64
    requires some { 0 < number }
    requires few { number < 100000000000000000 }
    requires digit { IsDigit digit }
    ensures digits { decimal result ≡ decimal number ++ digit ∷ [] }
    ensures is { result + 48 ≡ number * 10 + digit }
{
    number * 10 + u64::from(digit - b'0')
}

/// The number whose last digit is this one and whose others are those of a number that is not 0, if it is below 2 to the 64.
fn with_digit(number: u64, digit: u64) -> Option<u64>
    requires some { 0 < number }
    requires low { digit < 10 }
    ensures digits { IfSome result (λ more. decimal more ≡ decimal number ++ (48 + digit) ∷ []) }
    ensures some { IfSome result (λ more. 0 < more) }
    ensures low { IfSome result (λ more. more < 2 ^ 64) }
{
    let tens = number.checked_mul(10)?;
    let more = tens.checked_add(digit)?;
    Some(more)
}

/// The digit in front, and what stands behind it.
#[inline(always)]
fn digit_in(bytes: &[u8]) -> Option<(u64, &[u8])>
    ensures digit { IfSome result (λ parts. bytes.now ≡ (48 + parts.0) ∷ parts.1.now) }
    ensures low { IfSome result (λ parts. parts.0 < 10) }
{
    let (first, after) = bytes.split_first()?;
    if !is_digit(*first) {
        return None;
    }
    Some((u64::from(*first - b'0'), after))
}

/// What stands behind a tab in front.
fn behind_tab(bytes: &[u8]) -> Option<&[u8]>
    ensures { IfSome result (λ after. bytes.now ≡ 9 ∷ after.now) }
{
    match bytes {
        [b'\t', after @ ..] => Some(after),
        _ => None,
    }
}
