ghost use Rattle.std.specs.Prelude.{◌≡◌, ℕ, ◌<◌, ◌≤◌, List, ◌∷◌, ◌++◌, length, IfSome, decimal, MatchOption, ◌≢◌};
ghost use Rattle.std.specs.Str.Parse.{digits_value};
ghost use Rattle.cards.specs.Digits.{AllDigits, Run, Canonical};

/// The largest number, 99,999,999, has eight digits.
const MOST_DIGITS: usize = 8;

/// How many digits the text begins with.
fn digits(text: &[u8]) -> usize
    ensures { Run text.now result }
{
    text.iter().take_while(|b| b.is_ascii_digit()).count()
}

/// The number that the digits write, if they write it as a card does, with no leading zero.
fn to_number(digits: &[u8]) -> Option<usize>
    requires { AllDigits digits.now }
    ensures { MatchOption result (Canonical digits.now → ⊥) (λ n. Canonical digits.now × (n ≡ digits_value 10 digits.now)) }
{
    if digits.is_empty() || digits.len() > MOST_DIGITS || digits.len() > 1 && digits[0] == b'0' {
        return None;
    }
    // By hand: as text to the library's parse, each of a card's numbers would be read three times, and take twice the time.
    let mut n = 0;
    for digit in digits {
        n = n * 10 + usize::from(*digit - b'0');
    }
    Some(n)
}

/// The number that the text begins with, and what follows it.
pub(crate) fn number(text: &[u8]) -> Option<(usize, &[u8])>
    ensures begins { IfSome result (λ p. (p.0 ≤ 99999999) × (text.now ≡ decimal p.0 ++ p.1.now)) }
    ensures every { (n t : ℕ) (ts : List ℕ) → n ≤ 99999999 → t < 48 → text.now ≡ decimal n ++ t ∷ ts → MatchOption result ⊥ (λ p. (p.0 ≡ n) × (p.1.now ≡ t ∷ ts)) }
{
    let (front, rest) = text.split_at(digits(text));
    Some((to_number(front)?, rest))
}

/// What follows the byte that the text has to begin with.
pub(crate) fn after(text: &[u8], byte: u8) -> Option<&[u8]>
    ensures { MatchOption result ((ts : List ℕ) → text.now ≢ byte ∷ ts) (λ rest. text.now ≡ byte ∷ rest.now) }
{
    text.strip_prefix(&[byte])
}
