//! Classes of bytes by which several constructs go on.
#![tactic(auto)]

ghost use Rattle.std.specs.Prelude.{◌≡◌};
ghost use Rattle.markdown_plan.specs.ByteTests.{letter_value, alphanumeric_value};

/// Whether this is an ASCII letter.
pub fn is_letter(code: u8) -> bool
    ensures { result ≡ letter_value code }
{
    matches!(code, b'A'..=b'Z' | b'a'..=b'z')
}

/// Whether this is an ASCII letter or digit.
pub fn is_alphanumeric(code: u8) -> bool
    ensures { result ≡ alphanumeric_value code }
{
    is_letter(code) || matches!(code, b'0'..=b'9')
}
