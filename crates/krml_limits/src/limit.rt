//! The number of each limit.

ghost use Rattle.std.specs.Prelude.{◌≡◌, [], ◌∷◌};
ghost use Rattle.krml_syntax.specs.Limits.{limit_of, first_above};

use krml_syntax::LimitKind;
use krml_trace::MAX_ELEMENTS;

/// How much of a kind there may be.
pub fn limit_of(kind: LimitKind) -> u64
    ensures { result ≡ limit_of kind }
{
    match kind {
        LimitKind::Definitions => 2_000,
        LimitKind::Name => 64,
        LimitKind::Forms => 8_000,
        LimitKind::Variables => 8,
        LimitKind::Parameters => 32,
        LimitKind::Fields => 24,
        LimitKind::Constructors => 256,
        LimitKind::Elements => u64::from(MAX_ELEMENTS),
    }
}

/// A count, where it is above a limit.
pub fn above(limit: u64, count: u64) -> Option<u64>
    ensures { result ≡ first_above limit (count ∷ []) }
{
    if count <= limit { None } else { Some(count) }
}
