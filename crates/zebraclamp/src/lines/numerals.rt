ghost use Rattle.std.specs.Prelude.{◌^◌, ◌<◌, ◌≤◌, length, IfSome};
ghost use Rattle.std.specs.Option.{SomeIff};
ghost use Rattle.std.specs.Str.Parse.{AllDigits, digits_value};

// The number that a word of decimal digits writes, if it is below 2^32: no sign, no blank, no other letter.
pub(crate) fn numeral(word: &str) -> Option<u32>
    ensures { SomeIff result (AllDigits 10 word.now × (0 < length word.now) × (digits_value 10 word.now < 2 ^ 32)) (digits_value 10 word.now) }
{
    match word.as_bytes() {
        [b'+', ..] => None,
        _ => word.parse::<u32>().ok(),
    }
}

// The number that a word writes, as an N, if it is at most this.
pub(crate) fn numeral_up_to<N: TryFrom<u32>>(word: &str, most: u32) -> Option<N>
where
    N::Error: Drop,
    ensures { IfSome result (λ x. AllDigits 10 word.now × (digits_value 10 word.now ≤ most) × N.try_from_gives (digits_value 10 word.now) (Ok x)) }
{
    let number = numeral(word).filter(|n| *n <= most)?;
    N::try_from(number).ok()
}
