//! Run cards. A card is three lines of ASCII text: the number of its entries, a space and the capacity; a letter
//! for each entry; and the sizes of the entries, with one space between two. A number is decimal, at most
//! 99,999,999, and has no leading zero.
#![tactic(auto)]

ghost use Rattle.std.specs.Prelude.{◌≡◌, ℕ, ◌<◌, ◌≤◌, List, [], ◌∷◌, ◌++◌, length, IfSome, vec_capacity, decimal, MatchOption, MatchResult, Some, ◌≢◌};
ghost use Rattle.cards.specs.Letters.{letter_of, letter_text, align_of, refusal, refusal_text};
ghost use Rattle.cards.specs.declared.Letter.{Letter};
ghost use Rattle.cards.specs.Read.{capacity_of, entries_of, Is, NoCard, Read, OneWriting, Lines};
ghost use Rattle.cards.specs.Written.{Sound};

mod blanks;
mod scan;

pub use blanks::Blank;
use scan::{after, number};
use std::error::Error;
use std::fmt;

/// Longer texts are refused unread.
pub const MOST_BYTES: usize = 32_768;

const MOST_ENTRIES: usize = 4096;

/// What an entry does: a push with an alignment of 1, 2, 4, 8 or 16, a vector of positions or of cues, or the plain pop.
/// Its number is that of the character that writes it: b, h, w, d, q, v, c or p.
#[derive(Clone, Copy, PartialEq, Eq, Debug)]
pub enum Letter {
    Byte = 98,
    Half = 104,
    Word = 119,
    Double = 100,
    Quad = 113,
    Positions = 118,
    Cues = 99,
    Pop = 112,
}

impl Letter {
    /// The alignment of a push; what is no push has none.
    pub fn align(self) -> Option<usize>
        ensures { result ≡ align_of self }
    {
        match self {
            Letter::Byte => Some(1),
            Letter::Half => Some(2),
            Letter::Word => Some(4),
            Letter::Double => Some(8),
            Letter::Quad => Some(16),
            Letter::Positions | Letter::Cues | Letter::Pop => None,
        }
    }
}

/// The letter that the character writes; a character that writes none is refused. By a table, since a search over the
/// variants would list them just the same.
impl TryFrom<char> for Letter {
    type Error = Fault;

    ghost try_from_gives = { λ c r. MatchResult r (λ l. letter_of l ≡ c) (λ _. (l : Letter) → letter_of l ≢ c) };

    fn try_from(letter: char) -> Result<Letter, Fault> {
        match letter {
            'b' => Ok(Letter::Byte),
            'h' => Ok(Letter::Half),
            'w' => Ok(Letter::Word),
            'd' => Ok(Letter::Double),
            'q' => Ok(Letter::Quad),
            'v' => Ok(Letter::Positions),
            'c' => Ok(Letter::Cues),
            'p' => Ok(Letter::Pop),
            _ => Err(Fault::Broken),
        }
    }
}

/// The character that writes it.
impl From<Letter> for char {
    ghost from_gives = { λ l c. c ≡ letter_of l };

    fn from(letter: Letter) -> char {
        char::from(letter as u8)
    }
}

impl fmt::Display for Letter {
    ghost output = { λ l. Some (letter_text l) };

    fn fmt<W: fmt::Write>(&self, f: &mut fmt::Formatter<W>) -> fmt::Result {
        let letter = char::from(*self);
        write!(f, "{letter}")
    }
}

/// The size counts positions or cues at a vector, and is 0 at a pop.
#[derive(Clone, Copy, PartialEq, Eq, Debug)]
pub struct Entry {
    pub letter: Letter,
    pub size: usize,
}

/// Why a text is refused.
#[derive(Clone, Copy, PartialEq, Eq, Debug)]
pub enum Fault {
    Broken = 11,
}

impl Fault {
    /// The number that users know the refusal by: each type of refusal has numbers of its own.
    pub fn number(self) -> u32
        ensures { result ≡ refusal self }
    {
        self as u32
    }
}

// By hand: a derive's Display has no contract that says what it prints.
impl fmt::Display for Fault {
    ghost output = { λ f. Some (refusal_text f) };

    fn fmt<W: fmt::Write>(&self, f: &mut fmt::Formatter<W>) -> fmt::Result {
        let number = self.number();
        write!(f, "refused {number}")
    }
}

impl Error for Fault {}

#[derive(Drop)]
pub struct Card {
    capacity: usize,
    entries: Vec<Entry>,
}

impl Card {
    /// The card that the text writes. There is room for every card, so a refusal says that the text is none.
    pub fn read(blank: Blank, text: &[u8]) -> Result<Card, Fault>
        ensures answer { Read text.now result }
        ensures one { OneWriting }
    {
        parse(blank, text).ok_or(Fault::Broken)
    }

    pub fn capacity(&self) -> usize
        ensures { result ≡ capacity_of self.now }
    {
        self.capacity
    }

    pub fn entries(&self) -> &[Entry]
        ensures { result.now ≡ entries_of self.now }
    {
        self.entries.as_slice()
    }
}

/// The card that the text writes, if it writes one.
fn parse(blank: Blank, text: &[u8]) -> Option<Card>
    ensures { MatchOption result (NoCard text.now) (λ card. Is text.now (capacity_of card) (entries_of card)) }
{
    if text.len() > MOST_BYTES {
        return None;
    }
    let (count, capacity, rest) = header(text)?;
    if count > MOST_ENTRIES {
        return None;
    }
    let (letters, rest) = rest.split_at_checked(count)?;
    let sizes = after(rest, b'\n')?;
    let entries = entries(blank, letters, sizes)?;
    Some(Card { capacity, entries })
}

/// The count and the capacity of the first line, and what follows the line.
fn header(text: &[u8]) -> Option<(usize, usize, &[u8])>
    ensures begins { IfSome result (λ p. (p.1 ≤ 99999999) × (text.now ≡ decimal p.0 ++ 32 ∷ (decimal p.1 ++ 10 ∷ p.2.now))) }
    ensures every { (n c : ℕ) (ts : List ℕ) → n ≤ 99999999 → c ≤ 99999999 → text.now ≡ decimal n ++ 32 ∷ (decimal c ++ 10 ∷ ts) → MatchOption result ⊥ (λ p. (p.0 ≡ n) × (p.1 ≡ c) × (p.2.now ≡ ts)) }
{
    let (count, rest) = number(text)?;
    let rest = after(rest, b' ')?;
    let (capacity, rest) = number(rest)?;
    let rest = after(rest, b'\n')?;
    Some((count, capacity, rest))
}

/// The entries that the second and the third line write.
fn entries(blank: Blank, letters: &[u8], sizes: &[u8]) -> Option<Vec<Entry>>
    requires { length letters.now ≤ 4096 }
    ensures { MatchOption result ((es : List Entry) → Lines letters.now sizes.now es → ⊥) (λ v. Lines letters.now sizes.now v.items) }
{
    let mut entries = blank.entries;
    let mut rest = sizes;
    for (i, letter) in letters.iter().enumerate() {
        let (entry, next) = first_entry(*letter, rest)?;
        // The last size has no space after it. Splitting its letter off would read an entry in two places.
        rest = if i + 1 < letters.len() {
            after(next, b' ')?
        } else {
            next
        };
        entries.push_reserved(entry);
    }
    (rest == b"\n".as_slice()).then_some(entries)
}

/// The entry of a letter and the size that the text begins with, and what follows the size.
fn first_entry(letter: u8, text: &[u8]) -> Option<(Entry, &[u8])>
    ensures begins { IfSome result (λ p. (letter_of p.0.letter ≡ letter) × Sound p.0 × (text.now ≡ decimal p.0.size ++ p.1.now)) }
    ensures every { (e : Entry) (t : ℕ) (ts : List ℕ) → Sound e → letter_of e.letter ≡ letter → t < 48 → text.now ≡ decimal e.size ++ t ∷ ts → MatchOption result ⊥ (λ p. (p.0 ≡ e) × (p.1.now ≡ t ∷ ts)) }
{
    let letter = Letter::try_from(char::from(letter)).ok()?;
    let (size, rest) = number(text)?;
    if letter == Letter::Pop && size > 0 {
        return None;
    }
    Some((Entry { letter, size }, rest))
}
