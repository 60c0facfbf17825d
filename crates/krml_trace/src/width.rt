//! Widths of integer types.

ghost use Rattle.std.specs.Prelude.{◌≡◌, ◌%◌, ◌^◌};
ghost use Rattle.krml_trace.specs.Argument.{fits_width};
ghost use Rattle.krml_trace.specs.Width.{bits, same_width};

/// The width of an integer type.
#[derive(Clone, Copy, Debug, PartialEq, Eq)]
pub enum Width {
    W8,
    W32,
    W64,
}

impl Width {
    /// `v` modulo 2 to the power of the width.
    pub fn wrap(self, v: u64) -> u64
        ensures { result ≡ v % 2 ^ bits self }
    {
        match self {
            Width::W8 => v % (1 << 8),
            Width::W32 => v % (1 << 32),
            Width::W64 => v,
        }
    }

    /// Whether the other width is the same.
    pub fn is(self, other: Width) -> bool
        ensures { result ≡ same_width self other }
    {
        match self {
            Width::W8 => matches!(other, Width::W8),
            Width::W32 => matches!(other, Width::W32),
            Width::W64 => matches!(other, Width::W64),
        }
    }

    /// Whether `v` is below 2 to the power of the width.
    pub fn fits(self, v: u64) -> bool
        ensures { result ≡ fits_width self v }
    {
        match self {
            Width::W8 => v < 1 << 8,
            Width::W32 => v < 1 << 32,
            Width::W64 => true,
        }
    }
}
