//! The comments of a text, blanked out byte by byte.

ghost use Rattle.std.specs.Prelude.{◌≡◌, false};
ghost use Rattle.krml_forms.specs.Text.{plain_byte, comment_after};

/// Blanks out the comments of a text, byte by byte.
#[derive(Clone, Copy)]
pub struct Comments {
    pub is_open: bool,
}

impl Comments {
    /// Before the first byte of a text.
    pub fn new() -> Comments
        ensures { result.is_open ≡ false }
    {
        Comments { is_open: false }
    }

    /// The next byte of the text, or a space where it stands in a comment.
    pub fn blank(&mut self, byte: u8) -> u8
        ensures byte { result ≡ plain_byte self.old.is_open byte }
        ensures state { self.new.is_open ≡ comment_after self.old.is_open byte }
    {
        match (self.is_open, byte) {
            (true, b'\n') => {
                self.is_open = false;
                b'\n'
            }
            (true, _) => b' ',
            (false, b';') => {
                self.is_open = true;
                b' '
            }
            (false, _) => byte,
        }
    }
}
