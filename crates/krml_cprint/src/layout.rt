//! Lines and their levels.

ghost use Rattle.std.specs.Prelude.{◌≡◌, ◌*◌, ◌++◌, OnOk, replicate};
ghost use Rattle.krml_ctree.specs.Text.{as_text};

use krml_trace::NoMemory;

/// Writes two spaces a level.
pub(crate) fn margin(out: &mut Vec<u8>, level: u32) -> Result<(), NoMemory>
    ensures { OnOk result (out.new.items ≡ out.old.items ++ replicate (2 * level) 32) }
{
    for _ in 0..level {
        out.extend_from_slice(b"  ")?;
    }
    Ok(())
}

/// Writes a line.
pub(crate) fn line(out: &mut Vec<u8>, text: &[u8], level: u32) -> Result<(), NoMemory>
    ensures { OnOk result (out.new.items ≡ out.old.items ++ as_text.line level text.now) }
{
    margin(out, level)?;
    out.extend_from_slice(text)?;
    out.extend_from_slice(b"\n")
}
