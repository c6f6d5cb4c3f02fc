//! What is known of tables of codes.
ghost use Rattle.code_table.specs.Laws.{BodiesAreDone, ConditionsAreAnswered, DescriptionsAreSaid, HeadsAreForTheirUses, NeverTableAndNone, OneTable, OriginsAreTables, StringsAreInOrder, TableOrNone, TablesAreSoundTogether, TablesAreTold};

/// The codes of a table are sound together: each is judged by its own number, and each test that one names is one, inside
/// one loop more than are open there.
pub fn tables_are_sound_together()
    ensures { TablesAreSoundTogether }
{}

/// No codes are a table in two ways.
pub fn one_table()
    ensures { OneTable }
{}

/// Codes are a table or none.
pub fn table_or_none()
    ensures { TableOrNone }
{}

/// Each code that other tables name is there, for the use for which they name it.
pub fn heads_are_for_their_uses()
    ensures { HeadsAreForTheirUses }
{}

/// The codes of a table are those that its bytes spell.
pub fn tables_are_told()
    ensures { TablesAreTold }
{}

/// Texts, rules and scenes that fit, and whose codes bytes can say, are a table: the bytes of all of these.
pub fn origins_are_tables()
    ensures { OriginsAreTables }
{}

/// In a story whose codes are those of texts, rules and scenes that fit it, and in which each string stands by its number,
/// the code of a text's number says what the text says, in every world and action, or abandons as it does.
pub fn descriptions_are_said()
    ensures { DescriptionsAreSaid }
{}

/// The code of a condition's number answers there what the condition is, in every world and action, or abandons as it does.
pub fn conditions_are_answered()
    ensures { ConditionsAreAnswered }
{}

/// A run of the code of a body's number does there what the body means, in every world and action, whatever the actions that
/// it tries and the rulebooks that it follows do, up to its end, a decision or what abandons it.
pub fn bodies_are_done()
    ensures { BodiesAreDone }
{}

/// The codes of texts, rules and scenes name the strings that these say, in order.
pub fn strings_are_in_order()
    ensures { StringsAreInOrder }
{}

/// Texts, rules and scenes that have a table of codes have none for no reason but memory.
pub fn never_table_and_none()
    ensures { NeverTableAndNone }
{}
