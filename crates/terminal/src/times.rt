//! Times, as they are shown.

use itoa::Buffer;
use std::alloc::AllocError;

const MINUTE: u64 = 60;

const HOUR: u64 = 60 * MINUTE;

/// Puts so many milliseconds behind a text: `41s`, `2m05s` or `1h02m`, rounded down.
pub fn push_time(text: &mut Vec<u8>, millis: u64) -> Result<(), AllocError> {
    let seconds = millis / 1000;
    if seconds < MINUTE {
        push_number(text, seconds)?;
    } else if seconds < HOUR {
        push_number(text, seconds / MINUTE)?;
        text.push(b'm')?;
        push_two_digits(text, seconds % MINUTE)?;
    } else {
        push_number(text, seconds / HOUR)?;
        text.push(b'h')?;
        push_two_digits(text, seconds % HOUR / MINUTE)?;
        text.push(b'm')?;
        return Ok(());
    }
    text.push(b's')?;
    Ok(())
}

/// Puts a number behind a text.
pub fn push_number(text: &mut Vec<u8>, number: u64) -> Result<(), AllocError> {
    let mut buffer = Buffer::new();
    text.extend_from_slice(buffer.format(number).as_bytes())
}

fn push_two_digits(text: &mut Vec<u8>, number: u64) -> Result<(), AllocError> {
    if number < 10 {
        text.push(b'0')?;
    }
    push_number(text, number)
}
