//! A number as words and lines write it.
ghost use Rattle.std.specs.Prelude.{◌≡◌, ◌≤◌, SomeIff, IfSome};
ghost use Rattle.std.specs.Str.Parse.{digits_value};
ghost use Rattle.spindle_commands.specs.Numbers.{IsNumber};

/// A number of one to ten decimal digits that fits 32 bits; leading zeros count as digits.
pub fn number(text: &str) -> Option<u32>
    ensures { SomeIff result (IsNumber text.now) (digits_value 10 text.now) }
{
    if text.len() > 10 || text.starts_with('+') {
        return None;
    }
    text.parse().ok()
}

/// A number from `low` to `high`, both included.
pub fn number_within(text: &str, low: u32, high: u32) -> Option<u32>
    ensures low { IfSome result (λ n. low ≤ n) }
    ensures high { IfSome result (λ n. n ≤ high) }
{
    let number = number(text)?;
    if number < low || number > high {
        return None;
    }
    Some(number)
}
