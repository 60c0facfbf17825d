//! The size and the alignment of types in memory.

ghost use Rattle.std.specs.Prelude.{◌≡◌, ◌≤◌, ◌<◌, ◌*◌, ◌^◌};
ghost use Rattle.std.specs.Int.{next_multiple_of};
ghost use Rattle.krml_layout.specs.Layout.{bytes_of, scalar, empty, with_member, stride};
ghost use Rattle.krml_layout.specs.Bounds.{max_bytes, max_align};

use krml_trace::Width;

/// How a type lies in memory.
#[derive(Clone, Copy, Drop)]
pub struct TypeLayout {
    /// Bytes, up to the end of the last scalar.
    pub size: u32,
    /// Bytes of the widest scalar: a value begins at a multiple of it.
    pub align: u32,
}

impl TypeLayout {
    /// The layout of what takes no room.
    pub(crate) fn empty() -> TypeLayout
        ensures { result ≡ empty }
    {
        TypeLayout { size: 0, align: 1 }
    }

    /// The layout of a `bool`.
    pub(crate) fn bool() -> TypeLayout
        ensures { result ≡ scalar 1 }
    {
        TypeLayout { size: 1, align: 1 }
    }

    /// The layout of an integer.
    pub(crate) fn int(width: Width) -> TypeLayout
        ensures { result ≡ scalar (bytes_of width) }
    {
        let n = match width {
            Width::W8 => 1,
            Width::W32 => 4,
            Width::W64 => 8,
        };
        TypeLayout { size: n, align: n }
    }

    /// The layout with a member more, at the next multiple of its alignment.
    pub(crate) fn with_member(self, member: TypeLayout) -> TypeLayout
        requires aligned { 0 < member.align }
        requires fits { (with_member self member).size < 2 ^ 32 }
        ensures { result ≡ with_member self member }
    {
        TypeLayout {
            size: self.size.next_multiple_of(member.align) + member.size,
            align: self.align.max(member.align),
        }
    }

    /// The bytes of so many values in a row, in whole words of 8.
    pub(crate) fn slot_bytes(self, len: u32) -> u64
        requires aligned { 0 < self.align }
        requires small { self.align ≤ max_align }
        requires fits { self.size ≤ max_bytes }
        ensures { result ≡ next_multiple_of (len * stride self) 8 }
    {
        let stride = self.size.next_multiple_of(self.align);
        (u64::from(len) * u64::from(stride)).next_multiple_of(8)
    }
}
