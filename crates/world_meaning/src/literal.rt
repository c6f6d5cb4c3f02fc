//! Literal numbers, from -2147483648 to 2147483647.
ghost use Rattle.std.specs.Prelude.{◌≡◌, ◌<◌, min, nat_lt};
ghost use Rattle.std.specs.List.{list_all};
ghost use Rattle.std.specs.Char.{is_ascii_digit};
ghost use Rattle.world_meaning.specs.Literals.{digits_of, is_literal, is_negative, is_out_of_range, literal_in, literal_of, magnitude, most_of};

/// Whether the word begins with `-`.
fn is_negative(word: &[u8]) -> bool
    ensures { result ≡ is_negative word.now }
{
    match word {
        [] => false,
        [first, ..] => *first == b'-',
    }
}

/// The word without a `-` in front.
fn digits_of(word: &[u8]) -> &[u8]
    ensures { result.now ≡ digits_of word.now }
{
    match word {
        [] => word,
        [first, rest @ ..] => { if *first == b'-' { rest } else { word } }
    }
}

/// Whether each byte is a digit.
fn are_digits(bytes: &[u8]) -> bool
    ensures { result ≡ list_all is_ascii_digit bytes.now }
{
    bytes.iter().all(|byte| byte.is_ascii_digit())
}

/// Whether the word is a literal: digits, perhaps behind a `-`.
pub fn is_literal(word: &[u8]) -> bool
    ensures { result ≡ is_literal word.now }
{
    let digits = digits_of(word);
    !digits.is_empty() && are_digits(digits)
}

/// The highest number, or of negative ones the lowest.
fn most_of(word: &[u8]) -> u64
    ensures value { result ≡ most_of word.now }
    ensures bound { result < 2147483649 }
{
    if is_negative(word) {
        2_147_483_648
    } else {
        2_147_483_647
    }
}

/// Whether the number that the digits spell is above `most`.
#[tactic(auto, using(crate::proofs::Digits::stays_past))]
fn exceeds(digits: &[u8], most: u64) -> bool
    requires { most < 2147483649 }
    ensures { result ≡ nat_lt most (magnitude digits.now) }
{
    let mut number: u64 = 0;
    let mut rest = digits;
    while let [digit, after @ ..] = rest {
        number = number * 10 + u64::from(digit.saturating_sub(b'0'));
        if number > most {
            return true;
        }
        rest = after;
    }
    false
}

/// The size of the number that the digits spell, at most `most`.
#[tactic(auto, using(crate::proofs::Digits::stays_past))]
fn size_up_to(digits: &[u8], most: u64) -> u64
    requires { most < 2147483649 }
    ensures { result ≡ min (magnitude digits.now) most }
{
    let mut number: u64 = 0;
    let mut rest = digits;
    while let [digit, after @ ..] = rest {
        number = number * 10 + u64::from(digit.saturating_sub(b'0'));
        if number > most {
            return most;
        }
        rest = after;
    }
    number
}

/// The number that a literal spells, from -2147483648 to 2147483647.
pub fn literal_of(word: &[u8]) -> i32
    ensures { result ≡ literal_of word.now }
{
    let size = size_up_to(digits_of(word), most_of(word)) as i64;
    if is_negative(word) {
        (0 - size) as i32
    } else {
        size as i32
    }
}

/// Whether the word is a literal whose number is out of range.
pub fn is_out_of_range(word: &[u8]) -> bool
    ensures { result ≡ is_out_of_range word.now }
{
    is_literal(word) && exceeds(digits_of(word), most_of(word))
}

/// The number that a word spells, if it is a literal in range.
pub fn literal_in(word: &[u8]) -> Option<i32>
    ensures { result ≡ literal_in word.now }
{
    if is_literal(word) && !is_out_of_range(word) {
        Some(literal_of(word))
    } else {
        None
    }
}
