//! Lines of what a tool prints.

ghost use Rattle.std.specs.Prelude.{◌≡◌, ◌++◌, OnOk, flat_map, string_bytes};
ghost use Rattle.tools.specs.Answers.{line};

use std::alloc::AllocError;

/// Puts the parts at the end of a text, and a newline behind them.
pub fn push_line(text: &mut String, parts: &[&str]) -> Result<(), AllocError>
    ensures { OnOk result (string_bytes text.new ≡ string_bytes text.old ++ line (flat_map (λ part. part.now) parts.now)) }
{
    push_parts(text, parts)?;
    text.push('\n')
}

/// Puts the parts at the end of a text.
fn push_parts(text: &mut String, parts: &[&str]) -> Result<(), AllocError>
    ensures { OnOk result (string_bytes text.new ≡ string_bytes text.old ++ flat_map (λ part. part.now) parts.now) }
{
    for part in parts {
        text.push_str(part)?;
    }
    Ok(())
}
