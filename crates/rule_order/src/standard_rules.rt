//! The rules that every story has (the Standard Rules): the rulebook and the action of each.
ghost use Rattle.std.specs.Prelude.{◌≡◌, slice_get};
ghost use Rattle.std.specs.Option.{option_map};
ghost use Rattle.play_meaning.specs.StandardRules.{standard_rules};

use play_meaning::standard_actions::{
    CLOSING, DROPPING, EXAMINING, GOING, INSERTING, JUMPING, LOOKING, OPENING, PUTTING_ON,
    SWITCHING_OFF, SWITCHING_ON, TAKING, TAKING_INVENTORY, TAKING_OFF, WAITING, WEARING,
};
use play_meaning::standard_books::{CARRY_OUT, CHECK, REPORT};

/// The rulebook and the action of each, by number from 1.
pub const STANDARD_RULES: [(u16, u8); 61] = [
    (CARRY_OUT, LOOKING),
    (CARRY_OUT, LOOKING),
    (CARRY_OUT, LOOKING),
    (CARRY_OUT, LOOKING),
    (CARRY_OUT, EXAMINING),
    (CARRY_OUT, EXAMINING),
    (CARRY_OUT, EXAMINING),
    (CARRY_OUT, EXAMINING),
    (CHECK, TAKING),
    (CHECK, TAKING),
    (CHECK, TAKING),
    (CHECK, TAKING),
    (CHECK, TAKING),
    (CHECK, TAKING),
    (CARRY_OUT, TAKING),
    (REPORT, TAKING),
    (CHECK, DROPPING),
    (CARRY_OUT, DROPPING),
    (REPORT, DROPPING),
    (CHECK, PUTTING_ON),
    (CHECK, PUTTING_ON),
    (CHECK, PUTTING_ON),
    (CARRY_OUT, PUTTING_ON),
    (REPORT, PUTTING_ON),
    (CHECK, INSERTING),
    (CHECK, INSERTING),
    (CHECK, INSERTING),
    (CHECK, INSERTING),
    (CARRY_OUT, INSERTING),
    (REPORT, INSERTING),
    (CHECK, OPENING),
    (CHECK, OPENING),
    (CARRY_OUT, OPENING),
    (REPORT, OPENING),
    (CHECK, CLOSING),
    (CHECK, CLOSING),
    (CARRY_OUT, CLOSING),
    (REPORT, CLOSING),
    (CHECK, GOING),
    (CHECK, GOING),
    (CARRY_OUT, GOING),
    (REPORT, GOING),
    (CHECK, WEARING),
    (CHECK, WEARING),
    (CARRY_OUT, WEARING),
    (REPORT, WEARING),
    (CHECK, TAKING_OFF),
    (CARRY_OUT, TAKING_OFF),
    (REPORT, TAKING_OFF),
    (CARRY_OUT, TAKING_INVENTORY),
    (CARRY_OUT, TAKING_INVENTORY),
    (REPORT, WAITING),
    (REPORT, JUMPING),
    (CHECK, SWITCHING_ON),
    (CHECK, SWITCHING_ON),
    (CARRY_OUT, SWITCHING_ON),
    (REPORT, SWITCHING_ON),
    (CHECK, SWITCHING_OFF),
    (CHECK, SWITCHING_OFF),
    (CARRY_OUT, SWITCHING_OFF),
    (REPORT, SWITCHING_OFF),
];

/// The rulebook of the row of this number.
fn book_at(rows: &[(u16, u8)], number: usize) -> Option<u16>
    ensures { result ≡ option_map (λ row. row.0) (slice_get rows.now number) }
{
    match rows.get(number) {
        None => None,
        Some(row) => Some(row.0),
    }
}

/// The rulebook of the standard rule that has this number, from 0.
pub fn standard_book(number: usize) -> Option<u16>
    ensures { result ≡ option_map (λ rule. rule.book) (slice_get standard_rules number) }
{
    book_at(STANDARD_RULES.as_slice(), number)
}
