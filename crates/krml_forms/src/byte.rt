//! Which bytes are white space, and which stand in words.

ghost use Rattle.std.specs.Prelude.{◌≡◌};
ghost use Rattle.krml_trace.specs.Byte.{is_white};
ghost use Rattle.krml_forms.specs.Text.{is_word};

/// Space, tab, CR and LF.
pub fn is_white(byte: u8) -> bool
    ensures { result ≡ is_white byte }
{
    matches!(byte, b' ' | b'\t' | b'\r' | b'\n')
}

/// Letters, digits, `_` and `'`.
pub fn is_word(byte: u8) -> bool
    ensures { result ≡ is_word byte }
{
    byte.is_ascii_alphanumeric() || byte == b'_' || byte == b'\''
}
