//! The instruction at the front of bytes.
ghost use Rattle.std.specs.Prelude.{◌≡◌, MatchOption};
ghost use Rattle.story_code.specs.Fronts.{by_byte, by_pair, by_relation, by_word, count_in, first_with, flag_in, front, front_by, integer_in, name_in, names_in, next_in, plain_ones, set_flag_in, try_in, word_of};
ghost use Rattle.story_code.specs.Spelling.{HasNoFront, IsFront};

use crate::argument::{choice_of, form_of, relation_of, side_of};
use play_meaning::Instruction;

/// An instruction without arguments.
#[inline(always)]
fn plain(byte: u8) -> Option<Instruction>
    ensures { result ≡ first_with byte plain_ones }
{
    match byte {
        0x04 => Some(Instruction::Turns),
        0x05 => Some(Instruction::Add),
        0x06 => Some(Instruction::Sub),
        0x07 => Some(Instruction::Mul),
        0x08 => Some(Instruction::Eq),
        0x09 => Some(Instruction::Less),
        0x0A => Some(Instruction::AtMost),
        0x0B => Some(Instruction::Not),
        0x0C => Some(Instruction::And),
        0x0D => Some(Instruction::Or),
        0x0E => Some(Instruction::Noun),
        0x0F => Some(Instruction::Second),
        0x10 => Some(Instruction::Location),
        0x16 => Some(Instruction::Encloses),
        0x17 => Some(Instruction::Visible),
        0x18 => Some(Instruction::Touchable),
        0x19 => Some(Instruction::Dark),
        0x1B => Some(Instruction::HasDescription),
        0x1C => Some(Instruction::Room),
        0x1D => Some(Instruction::Door),
        0x24 => Some(Instruction::Figure),
        0x25 => Some(Instruction::Description),
        0x2A => Some(Instruction::Move),
        0x2B => Some(Instruction::Away),
        0x37 => Some(Instruction::Done),
        0x38 => Some(Instruction::NoDecision),
        0x39 => Some(Instruction::Success),
        0x3A => Some(Instruction::Failure),
        0x3B => Some(Instruction::Answer),
        _ => None,
    }
}

/// An instruction with a number of one byte.
#[inline(always)]
fn numbered(byte: u8, rest: &[u8]) -> Option<Instruction>
    ensures { result ≡ by_byte byte rest.now }
{
    let [number, ..] = rest else {
        return None;
    };
    match byte {
        0x02 => Some(Instruction::Var(*number)),
        0x03 => Some(Instruction::Prop(*number)),
        0x11 => Some(Instruction::Loop(*number)),
        0x13 => Some(Instruction::Kind(*number)),
        0x1A => Some(Instruction::Happens(*number)),
        0x27 => Some(Instruction::SetProp(*number)),
        0x28 => Some(Instruction::SetVar(*number)),
        0x2C => Some(Instruction::ValueName(*number)),
        0x34 => Some(Instruction::Begin(*number)),
        _ => None,
    }
}

/// An instruction with a kind of value and one of its values.
#[inline(always)]
fn valued(byte: u8, rest: &[u8]) -> Option<Instruction>
    ensures { result ≡ by_pair byte rest.now }
{
    let [kind, value, ..] = rest else {
        return None;
    };
    match byte {
        0x1E => Some(Instruction::Valued(*kind, *value)),
        0x2D => Some(Instruction::SetValue(*kind, *value)),
        _ => None,
    }
}

/// The number of two bytes.
fn word(high: &u8, low: &u8) -> u16
    ensures { result ≡ word_of high.now low.now }
{
    u16::from_be_bytes([*high, *low])
}

/// An instruction with a number of two bytes.
#[inline(always)]
fn worded(byte: u8, rest: &[u8]) -> Option<Instruction>
    ensures { result ≡ by_word byte rest.now }
{
    let [high, low, ..] = rest else {
        return None;
    };
    let number = word(high, low);
    match byte {
        0x22 => Some(Instruction::Say(number)),
        0x31 => Some(Instruction::Follow(number)),
        0x32 => Some(Instruction::IfZero(number)),
        0x33 => Some(Instruction::Jump(number)),
        0x36 => Some(Instruction::EndStory(number)),
        _ => None,
    }
}

/// An instruction with a relation.
#[inline(always)]
fn related(byte: u8, rest: &[u8]) -> Option<Instruction>
    ensures { result ≡ by_relation byte rest.now }
{
    let [relation, ..] = rest else {
        return None;
    };
    let relation = relation_of(*relation)?;
    match byte {
        0x14 => Some(Instruction::Held(relation)),
        0x15 => Some(Instruction::Holder(relation)),
        0x29 => Some(Instruction::PutAt(relation)),
        _ => None,
    }
}

/// A number.
fn integer(rest: &[u8]) -> Option<Instruction>
    ensures { result ≡ integer_in rest.now }
{
    let [a, b, c, d, ..] = rest else {
        return None;
    };
    Some(Instruction::Num(i32::from_be_bytes([*a, *b, *c, *d])))
}

/// A property of an object.
fn flag(rest: &[u8]) -> Option<Instruction>
    ensures { result ≡ flag_in rest.now }
{
    let [property, asked, ..] = rest else {
        return None;
    };
    Some(Instruction::Flag(*property, side_of(*asked)?))
}

/// A property that is made true or false.
fn set_flag(rest: &[u8]) -> Option<Instruction>
    ensures { result ≡ set_flag_in rest.now }
{
    let [property, value, ..] = rest else {
        return None;
    };
    Some(Instruction::SetFlag(*property, choice_of(*value)?))
}

/// A count of objects.
fn count(rest: &[u8]) -> Option<Instruction>
    ensures { result ≡ count_in rest.now }
{
    let [number, high, low, ..] = rest else {
        return None;
    };
    Some(Instruction::Count(*number, word(high, low)))
}

/// Names of objects.
fn names(rest: &[u8]) -> Option<Instruction>
    ensures { result ≡ names_in rest.now }
{
    let [form, number, high, low, ..] = rest else {
        return None;
    };
    Some(Instruction::Names(form_of(*form)?, *number, word(high, low)))
}

/// A name.
fn name(rest: &[u8]) -> Option<Instruction>
    ensures { result ≡ name_in rest.now }
{
    let [form, ..] = rest else {
        return None;
    };
    Some(Instruction::Name(form_of(*form)?))
}

/// An action that is tried.
fn tries(rest: &[u8]) -> Option<Instruction>
    ensures { result ≡ try_in rest.now }
{
    let [silent, action, ..] = rest else {
        return None;
    };
    Some(Instruction::Try(choice_of(*silent)?, *action))
}

/// A loop's next turn.
fn next(rest: &[u8]) -> Option<Instruction>
    ensures { result ≡ next_in rest.now }
{
    let [number, high, low, exit_high, exit_low, ..] = rest else {
        return None;
    };
    Some(Instruction::Next(*number, word(high, low), word(exit_high, exit_low)))
}

/// The instruction that a byte begins.
#[tactic(auto, unfolding(crate::specs::Fronts::front_by, crate::specs::Fronts::common_in))]
#[inline(always)]
fn front_by(byte: u8, rest: &[u8]) -> Option<Instruction>
    ensures { result ≡ front_by byte rest.now }
{
    match byte {
        0x01 => integer(rest),
        0x12 => flag(rest),
        0x20 => count(rest),
        0x21 => names(rest),
        0x23 => name(rest),
        0x26 => set_flag(rest),
        0x30 => tries(rest),
        0x35 => next(rest),
        0x02 | 0x03 | 0x11 => numbered(byte, rest),
        0x13 | 0x1A => numbered(byte, rest),
        0x27 | 0x28 => numbered(byte, rest),
        0x2C | 0x34 => numbered(byte, rest),
        0x1E | 0x2D => valued(byte, rest),
        0x22 | 0x31 => worded(byte, rest),
        0x32 | 0x33 | 0x36 => worded(byte, rest),
        0x14 | 0x15 | 0x29 => related(byte, rest),
        _ => plain(byte),
    }
}

/// The instruction at the front, by its byte.
#[inline(always)]
pub fn first(bytes: &[u8]) -> Option<Instruction>
    ensures { result ≡ front bytes.now }
{
    match bytes {
        [] => None,
        [byte, rest @ ..] => front_by(*byte, rest),
    }
}

/// The instruction whose bytes stand in front of others; none if no instruction's do.
pub fn front(bytes: &[u8]) -> Option<Instruction>
    ensures { MatchOption result (HasNoFront bytes.now) (λ i. IsFront i bytes.now) }
{
    first(bytes)
}
