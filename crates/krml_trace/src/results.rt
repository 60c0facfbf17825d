//! Both of two results, or the first error.

ghost use Rattle.std.specs.Prelude.{◌≡◌, IfOk, IfErr, IsOkAnd, IsErrAnd, MatchResult};

/// Two results as one, of both values, or of the first error. A function that puts parts together takes them as results and
/// begins with this: so the match that computes the parts has no early return, which would drop what it holds.
pub fn both<A: Drop, B: Drop, E: Drop>(a: Result<A, E>, b: Result<B, E>) -> Result<(A, B), E>
    ensures values { IfOk result (λ pair. IsOkAnd a (λ a. IsOkAnd b (λ b. (pair.0 ≡ a) × (pair.1 ≡ b)))) }
    ensures first_error { IfErr result (λ e. MatchResult a (λ _. IsErrAnd b (λ of_b. e ≡ of_b)) (λ of_a. e ≡ of_a)) }
{
    match a {
        Ok(a) => match b {
            Ok(b) => Ok((a, b)),
            Err(e) => Err(e),
        },
        Err(e) => Err(e),
    }
}
