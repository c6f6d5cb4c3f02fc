//! What is known of each instruction: its byte, its size, the operands that it takes and gives, and how it goes on.
ghost use Rattle.std.specs.Prelude.{◌≡◌};
ghost use Rattle.play_meaning.specs.Instructions.{opcode, row_of, size_of};
ghost use Rattle.play_meaning.specs.SoundCodes.{way_of};

use play_meaning::{Instruction, Sort, Way};

/// The first byte of an instruction.
pub fn opcode(instruction: Instruction) -> u8
    ensures { result ≡ opcode instruction }
{
    match instruction {
        Instruction::Num(_) => 0x01,
        Instruction::Var(_) => 0x02,
        Instruction::Prop(_) => 0x03,
        Instruction::Turns => 0x04,
        Instruction::Add => 0x05,
        Instruction::Sub => 0x06,
        Instruction::Mul => 0x07,
        Instruction::Eq => 0x08,
        Instruction::Less => 0x09,
        Instruction::AtMost => 0x0A,
        Instruction::Not => 0x0B,
        Instruction::And => 0x0C,
        Instruction::Or => 0x0D,
        Instruction::Noun => 0x0E,
        Instruction::Second => 0x0F,
        Instruction::Location => 0x10,
        Instruction::Loop(_) => 0x11,
        Instruction::Flag(_, _) => 0x12,
        Instruction::Kind(_) => 0x13,
        Instruction::Held(_) => 0x14,
        Instruction::Holder(_) => 0x15,
        Instruction::Encloses => 0x16,
        Instruction::Visible => 0x17,
        Instruction::Touchable => 0x18,
        Instruction::Dark => 0x19,
        Instruction::Happens(_) => 0x1A,
        Instruction::HasDescription => 0x1B,
        Instruction::Room => 0x1C,
        Instruction::Door => 0x1D,
        Instruction::Valued(_, _) => 0x1E,
        Instruction::Count(_, _) => 0x20,
        Instruction::Names(_, _, _) => 0x21,
        Instruction::Say(_) => 0x22,
        Instruction::Name(_) => 0x23,
        Instruction::Figure => 0x24,
        Instruction::Description => 0x25,
        Instruction::SetFlag(_, _) => 0x26,
        Instruction::SetProp(_) => 0x27,
        Instruction::SetVar(_) => 0x28,
        Instruction::PutAt(_) => 0x29,
        Instruction::Move => 0x2A,
        Instruction::Away => 0x2B,
        Instruction::ValueName(_) => 0x2C,
        Instruction::SetValue(_, _) => 0x2D,
        Instruction::Try(_, _) => 0x30,
        Instruction::Follow(_) => 0x31,
        Instruction::IfZero(_) => 0x32,
        Instruction::Jump(_) => 0x33,
        Instruction::Begin(_) => 0x34,
        Instruction::Next(_, _, _) => 0x35,
        Instruction::EndStory(_) => 0x36,
        Instruction::Done => 0x37,
        Instruction::NoDecision => 0x38,
        Instruction::Success => 0x39,
        Instruction::Failure => 0x3A,
        Instruction::Answer => 0x3B,
    }
}

/// How many bytes an instruction takes.
pub fn size(instruction: Instruction) -> usize
    ensures { result ≡ size_of instruction }
{
    match instruction {
        Instruction::Num(_) => 5,
        Instruction::Var(_)
        | Instruction::Prop(_)
        | Instruction::Loop(_)
        | Instruction::Kind(_)
        | Instruction::Held(_)
        | Instruction::Holder(_)
        | Instruction::Happens(_)
        | Instruction::Name(_)
        | Instruction::SetProp(_)
        | Instruction::SetVar(_)
        | Instruction::PutAt(_)
        | Instruction::ValueName(_)
        | Instruction::Begin(_) => 2,
        Instruction::Flag(_, _)
        | Instruction::Valued(_, _)
        | Instruction::Say(_)
        | Instruction::SetFlag(_, _)
        | Instruction::SetValue(_, _)
        | Instruction::Try(_, _)
        | Instruction::Follow(_)
        | Instruction::IfZero(_)
        | Instruction::Jump(_)
        | Instruction::EndStory(_) => 3,
        Instruction::Count(_, _) => 4,
        Instruction::Names(_, _, _) => 5,
        Instruction::Next(_, _, _) => 6,
        _ => 1,
    }
}

/// What an instruction takes, the last pushed first; what is compared goes by its sort.
pub fn takes(instruction: Instruction) -> &'static [Sort]
    ensures { result.now ≡ (row_of instruction).takes }
{
    match instruction {
        Instruction::Add
        | Instruction::Sub
        | Instruction::Mul
        | Instruction::Less
        | Instruction::AtMost => &[Sort::Number, Sort::Number],
        Instruction::And | Instruction::Or => &[Sort::Truth, Sort::Truth],
        Instruction::Not | Instruction::IfZero(_) | Instruction::Answer => &[Sort::Truth],
        Instruction::Held(_)
        | Instruction::Encloses
        | Instruction::Room
        | Instruction::Door
        | Instruction::PutAt(_)
        | Instruction::Move
        | Instruction::Try(_, _) => &[Sort::Object, Sort::Object],
        Instruction::Prop(_)
        | Instruction::Flag(_, _)
        | Instruction::Kind(_)
        | Instruction::Holder(_)
        | Instruction::Visible
        | Instruction::Touchable
        | Instruction::HasDescription
        | Instruction::Valued(_, _)
        | Instruction::Name(_)
        | Instruction::Description
        | Instruction::SetFlag(_, _)
        | Instruction::Away
        | Instruction::ValueName(_)
        | Instruction::SetValue(_, _) => &[Sort::Object],
        Instruction::SetProp(_) => &[Sort::Number, Sort::Object],
        Instruction::Figure | Instruction::SetVar(_) => &[Sort::Number],
        _ => &[],
    }
}

/// What an instruction gives; what a number gives goes by the number.
pub fn gives(instruction: Instruction) -> Option<Sort>
    ensures { result ≡ (row_of instruction).gives }
{
    match instruction {
        Instruction::Var(_)
        | Instruction::Prop(_)
        | Instruction::Turns
        | Instruction::Add
        | Instruction::Sub
        | Instruction::Mul
        | Instruction::Count(_, _) => Some(Sort::Number),
        Instruction::Noun
        | Instruction::Second
        | Instruction::Location
        | Instruction::Loop(_)
        | Instruction::Holder(_)
        | Instruction::Room
        | Instruction::Door => Some(Sort::Object),
        Instruction::Eq
        | Instruction::Less
        | Instruction::AtMost
        | Instruction::Not
        | Instruction::And
        | Instruction::Or
        | Instruction::Flag(_, _)
        | Instruction::Kind(_)
        | Instruction::Held(_)
        | Instruction::Encloses
        | Instruction::Visible
        | Instruction::Touchable
        | Instruction::Dark
        | Instruction::Happens(_)
        | Instruction::HasDescription
        | Instruction::Valued(_, _) => Some(Sort::Truth),
        Instruction::Num(_)
        | Instruction::Names(_, _, _)
        | Instruction::Say(_)
        | Instruction::Name(_)
        | Instruction::Figure
        | Instruction::Description
        | Instruction::SetFlag(_, _)
        | Instruction::SetProp(_)
        | Instruction::SetVar(_)
        | Instruction::PutAt(_)
        | Instruction::Move
        | Instruction::Away
        | Instruction::ValueName(_)
        | Instruction::SetValue(_, _)
        | Instruction::Try(_, _)
        | Instruction::Follow(_)
        | Instruction::IfZero(_)
        | Instruction::Jump(_)
        | Instruction::Begin(_)
        | Instruction::Next(_, _, _)
        | Instruction::EndStory(_)
        | Instruction::Done
        | Instruction::NoDecision
        | Instruction::Success
        | Instruction::Failure
        | Instruction::Answer => None,
    }
}

/// How an instruction goes on.
pub fn way(instruction: Instruction) -> Way
    ensures { result ≡ way_of instruction }
{
    match instruction {
        Instruction::IfZero(place) => Way::Branch(place),
        Instruction::Jump(place) => Way::Leap(place),
        Instruction::Begin(_) => Way::Opens,
        Instruction::Next(_, _, exit) => Way::Turns(exit),
        Instruction::Done
        | Instruction::NoDecision
        | Instruction::Success
        | Instruction::Failure
        | Instruction::Answer => Way::Ends,
        _ => Way::Straight,
    }
}
