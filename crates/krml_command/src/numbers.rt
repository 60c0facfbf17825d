//! The numbers that options take, and those that stand where none is given.

ghost use Rattle.std.specs.Prelude.{◌≡◌, ◌≤◌, IfSome, option_map};
ghost use Rattle.krml_command.specs.Values.{number_in, setting};

/// The numbers that an option takes, and the one that stands where it is not given.
#[derive(Clone, Copy)]
pub(crate) struct Numbers {
    pub(crate) least: u64,
    pub(crate) most: u64,
    pub(crate) standard: u64,
}

pub(crate) const PAGES: Numbers = Numbers {
    least: 1,
    most: 1024,
    standard: 16,
};

/// Ticks.
pub(crate) const BOUND: Numbers = Numbers {
    least: 0,
    most: 10_000_000,
    standard: 1_000_000,
};

pub(crate) const DEPTH: Numbers = Numbers {
    least: 1,
    most: 100,
    standard: 100,
};

/// The number that the decimal digits of a text write, where it is one of these.
fn number_in(text: &str, numbers: Numbers) -> Option<u64>
    ensures { result ≡ number_in numbers.least numbers.most text.now }
{
    if text.starts_with('+') {
        return None;
    }
    let Ok(number) = text.parse::<u64>() else {
        return None;
    };
    if numbers.least <= number && number <= numbers.most {
        Some(number)
    } else {
        None
    }
}

/// The number of an option's value, or the standard one where there is none.
pub(crate) fn setting(value: Option<&str>, numbers: Numbers) -> Option<u64>
    requires { numbers.standard ≤ numbers.most }
    ensures value { result ≡ setting numbers (option_map (λ s. s.now) value.entry) }
    ensures within { IfSome result (λ n. n ≤ numbers.most) }
{
    match value {
        Some(text) => number_in(text, numbers),
        None => Some(numbers.standard),
    }
}
