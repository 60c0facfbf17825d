//! The first fault of syntax of a text.

ghost use Rattle.std.specs.Prelude.{◌≡◌, ◌<◌, ◌^◌, MatchOption};
ghost use Rattle.krml_forms.specs.Faults.{IsFaultAt, IsFirst, HasNone};
ghost use Rattle.krml_forms.specs.Scan.{depth_after};

use crate::byte::{is_white, is_word};
use crate::comments::Comments;

/// How many lists are open behind a byte outside comments, where so many were open before it. None is a fault.
fn depth_after(depth: u64, byte: u8) -> Option<u64>
    requires { depth < 2 ^ 63 }
    ensures { result ≡ depth_after depth byte }
{
    match byte {
        b'(' => Some(depth + 1),
        b')' => depth.checked_sub(1),
        _ => {
            if is_word(byte) || is_white(byte) {
                Some(depth)
            } else {
                None
            }
        }
    }
}

/// The place of the first fault of a text.
pub fn first_fault(text: &[u8]) -> Option<u64>
    ensures { MatchOption result (HasNone (IsFaultAt text.now)) (λ at. IsFirst (IsFaultAt text.now) at) }
{
    let mut comments = Comments::new();
    let mut depth = 0;
    for (i, byte) in text.iter().enumerate() {
        let plain = comments.blank(*byte);
        match depth_after(depth, plain) {
            Some(behind) => depth = behind,
            None => return Some(i as u64),
        }
    }
    if depth > 0 {
        Some(text.len() as u64)
    } else {
        None
    }
}
