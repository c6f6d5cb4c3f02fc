//! The words and marks that sentence forms are made of, and those that no name may hold.
ghost use Rattle.std.specs.Prelude.{◌≡◌, true, length, map};
ghost use Rattle.std.specs.List.{list_all, slice_get};
ghost use Rattle.world_meaning.specs.Spelling.{is_spelled};
ghost use Rattle.i7_sentences.specs.Keywords.{keyword_among, keyword_in, keyword_of, keyword_spelled};
ghost use Rattle.i7_sentences.specs.SmallRows.{are_small, begins_with, begins_small, small_first};

use crate::word::as_read;
use i7_lexer::{PackedToken, TokenKind};
use world_meaning::is_spelled;

/// A word or mark that stands in a sentence form or in no name.
#[derive(Clone, Copy, PartialEq, Eq)]
pub enum Keyword {
    A,
    Above,
    Action,
    After,
    An,
    And,
    Any,
    Applying,
    As,
    Be,
    Before,
    Begins,
    Below,
    By,
    Called,
    Can,
    Carried,
    Carries,
    Carry,
    Check,
    Close,
    Colon,
    Comma,
    Continue,
    Decision,
    Decrease,
    Description,
    During,
    End,
    Ends,
    Every,
    Fails,
    Finally,
    First,
    Follow,
    From,
    Has,
    If,
    In,
    Increase,
    Inside,
    Instead,
    Is,
    Kind,
    Last,
    Light,
    Listed,
    Make,
    Move,
    No,
    Not,
    Nothing,
    Now,
    Number,
    Of,
    On,
    One,
    Open,
    Or,
    Otherwise,
    Out,
    Outside,
    Part,
    Play,
    Recurring,
    Repeat,
    Report,
    Requiring,
    Rule,
    Rulebook,
    Rules,
    Running,
    Say,
    Saying,
    Scene,
    Silently,
    Some,
    Stop,
    Story,
    Succeeds,
    That,
    The,
    Thing,
    Things,
    This,
    Through,
    To,
    Try,
    Turn,
    Two,
    Understand,
    Usually,
    Value,
    Varies,
    Visible,
    Wears,
    When,
    With,
    World,
    Worn,
}

/// The keywords with their spellings in small letters, those of no letter first, then those of one,
/// and so on.
pub const KEYWORDS: [&[(&[u8], Keyword)]; 12] = [
    &[],
    &[
        (b"(", Keyword::Open),
        (b")", Keyword::Close),
        (b",", Keyword::Comma),
        (b":", Keyword::Colon),
        (b"a", Keyword::A),
    ],
    &[
        (b"an", Keyword::An),
        (b"as", Keyword::As),
        (b"be", Keyword::Be),
        (b"by", Keyword::By),
        (b"if", Keyword::If),
        (b"in", Keyword::In),
        (b"is", Keyword::Is),
        (b"no", Keyword::No),
        (b"of", Keyword::Of),
        (b"on", Keyword::On),
        (b"or", Keyword::Or),
        (b"to", Keyword::To),
    ],
    &[
        (b"and", Keyword::And),
        (b"any", Keyword::Any),
        (b"can", Keyword::Can),
        (b"end", Keyword::End),
        (b"has", Keyword::Has),
        (b"not", Keyword::Not),
        (b"now", Keyword::Now),
        (b"one", Keyword::One),
        (b"out", Keyword::Out),
        (b"say", Keyword::Say),
        (b"the", Keyword::The),
        (b"try", Keyword::Try),
        (b"two", Keyword::Two),
    ],
    &[
        (b"ends", Keyword::Ends),
        (b"from", Keyword::From),
        (b"kind", Keyword::Kind),
        (b"last", Keyword::Last),
        (b"make", Keyword::Make),
        (b"move", Keyword::Move),
        (b"part", Keyword::Part),
        (b"play", Keyword::Play),
        (b"rule", Keyword::Rule),
        (b"some", Keyword::Some),
        (b"stop", Keyword::Stop),
        (b"that", Keyword::That),
        (b"this", Keyword::This),
        (b"turn", Keyword::Turn),
        (b"when", Keyword::When),
        (b"with", Keyword::With),
        (b"worn", Keyword::Worn),
    ],
    &[
        (b"above", Keyword::Above),
        (b"after", Keyword::After),
        (b"below", Keyword::Below),
        (b"carry", Keyword::Carry),
        (b"check", Keyword::Check),
        (b"every", Keyword::Every),
        (b"fails", Keyword::Fails),
        (b"first", Keyword::First),
        (b"light", Keyword::Light),
        (b"rules", Keyword::Rules),
        (b"scene", Keyword::Scene),
        (b"story", Keyword::Story),
        (b"thing", Keyword::Thing),
        (b"value", Keyword::Value),
        (b"wears", Keyword::Wears),
        (b"world", Keyword::World),
    ],
    &[
        (b"action", Keyword::Action),
        (b"before", Keyword::Before),
        (b"begins", Keyword::Begins),
        (b"called", Keyword::Called),
        (b"during", Keyword::During),
        (b"follow", Keyword::Follow),
        (b"inside", Keyword::Inside),
        (b"listed", Keyword::Listed),
        (b"number", Keyword::Number),
        (b"repeat", Keyword::Repeat),
        (b"report", Keyword::Report),
        (b"saying", Keyword::Saying),
        (b"things", Keyword::Things),
        (b"varies", Keyword::Varies),
    ],
    &[
        (b"carried", Keyword::Carried),
        (b"carries", Keyword::Carries),
        (b"finally", Keyword::Finally),
        (b"instead", Keyword::Instead),
        (b"nothing", Keyword::Nothing),
        (b"outside", Keyword::Outside),
        (b"running", Keyword::Running),
        (b"through", Keyword::Through),
        (b"usually", Keyword::Usually),
        (b"visible", Keyword::Visible),
    ],
    &[
        (b"applying", Keyword::Applying),
        (b"continue", Keyword::Continue),
        (b"decision", Keyword::Decision),
        (b"decrease", Keyword::Decrease),
        (b"increase", Keyword::Increase),
        (b"rulebook", Keyword::Rulebook),
        (b"silently", Keyword::Silently),
        (b"succeeds", Keyword::Succeeds),
    ],
    &[
        (b"recurring", Keyword::Recurring),
        (b"requiring", Keyword::Requiring),
        (b"otherwise", Keyword::Otherwise),
    ],
    &[(b"understand", Keyword::Understand)],
    &[(b"description", Keyword::Description)],
];

/// The articles that may stand before a name.
pub const ARTICLES: [Keyword; 4] = [Keyword::A, Keyword::An, Keyword::The, Keyword::Some];

/// The other words that no name of an object may hold.
pub const RESERVED: [Keyword; 16] = [
    Keyword::Is,
    Keyword::In,
    Keyword::On,
    Keyword::Of,
    Keyword::By,
    Keyword::From,
    Keyword::And,
    Keyword::Or,
    Keyword::Not,
    Keyword::Usually,
    Keyword::Kind,
    Keyword::Rule,
    Keyword::Rules,
    Keyword::If,
    Keyword::When,
    Keyword::During,
];

/// The table of keywords at one place of memory.
static TABLE: [&[(&[u8], Keyword)]; 12] = KEYWORDS;

/// The first letter of a word, a capital as a small one; 0 of no word.
fn small_first(word: &[u8]) -> u8
    ensures { result ≡ small_first word.now }
{
    match word {
        [] => 0,
        [letter, ..] => letter.to_ascii_lowercase(),
    }
}

/// Whether the spelling begins with this letter, if it isn't empty.
fn begins_with(first: u8, spelling: &[u8]) -> bool
    ensures { result ≡ begins_with first spelling.now }
{
    match spelling {
        [] => true,
        [letter, ..] => first == *letter,
    }
}

/// Whether the word, whose first letter is this, is spelled so; the letter tells of most words that they aren't.
#[tactic(auto, using(crate::proofs::SmallRows::first_tells))]
fn is_spelled_from(first: u8, word: &[u8], spelling: &[u8]) -> bool
    requires first { first ≡ small_first word.now }
    requires small { begins_small spelling.now ≡ true }
    ensures { result ≡ is_spelled word.now spelling.now }
{
    begins_with(first, spelling) && is_spelled(word, spelling)
}

/// The keyword of the first of these rows that is spelled as the word is.
#[tactic(auto, using(crate::proofs::SmallRows::small_parts))]
fn keyword_in(rows: &[(&[u8], Keyword)], word: &[u8]) -> Option<Keyword>
    requires { are_small (map (λ row. record { spelling = row.0.now; keyword = row.1 }) rows.now) ≡ true }
    ensures { result ≡ keyword_in word.now (map (λ row. record { spelling = row.0.now; keyword = row.1 }) rows.now) }
{
    let first = small_first(word);
    let mut rest = rows;
    while let [row, after @ ..] = rest {
        if is_spelled_from(first, word, row.0) {
            return Some(row.1);
        }
        rest = after;
    }
    None
}

/// The keyword that is spelled as the word is, in a table by length.
#[tactic(auto, using(crate::proofs::Keywords::rows_there))]
fn keyword_in_table(table: &[&[(&[u8], Keyword)]], word: &[u8]) -> Option<Keyword>
    requires { list_all are_small (map (λ rows. map (λ row. record { spelling = row.0.now; keyword = row.1 }) rows.now) table.now) ≡ true }
    ensures { result ≡ keyword_among word.now (slice_get (map (λ rows. map (λ row. record { spelling = row.0.now; keyword = row.1 }) rows.now) table.now) (length word.now)) }
{
    match table.get(word.len()) {
        None => None,
        Some(rows) => keyword_in(rows, word),
    }
}

/// The keyword that is spelled so, letter case aside.
#[tactic(auto, unfolding(crate::specs::Keywords::all_keywords, crate::specs::Keywords::keyword_spelled))]
fn keyword_spelled(word: &[u8]) -> Option<Keyword>
    ensures { result ≡ keyword_spelled word.now }
{
    keyword_in_table(&TABLE, word)
}

/// The keyword that a token is, if it is one; texts are none.
pub fn keyword_of(token: &PackedToken) -> Option<Keyword>
    ensures { result ≡ keyword_of token.now }
{
    match token.kind() {
        TokenKind::Text(_) => None,
        TokenKind::Word(word) => keyword_spelled(as_read(word.as_slice())),
        TokenKind::Mark(mark) => keyword_spelled(&[mark]),
    }
}
