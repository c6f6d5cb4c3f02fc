//! Laws: sentences are refused for what statements and claims show, at its line, and exits and descriptions are as they say.
ghost use Rattle.std.specs.Prelude.{◌≡◌, ℕ, ◌≤◌, List, Option, None, length};
ghost use Rattle.i7_kinds.specs.Demands.{descriptions_of, line_at, line_of_statement, second_description, second_target, target_of, wrong_kind};
ghost use Rattle.i7_kinds.specs.ExitsShown.{IsLed, IsWayOut};
ghost use Rattle.i7_kinds.specs.FirstShown.{IsFound};
ghost use Rattle.i7_lexer.specs.Rising.{LinesRise};
ghost use Rattle.i7_kinds.specs.Judged.{AreJudged, IsFirstLong, IsRefusedFor};
ghost use Rattle.i7_kinds.specs.Knowns.{Scope, off_path};
ghost use Rattle.i7_kinds.specs.PropertiesKept.{PropertiesAreKept};
ghost use Rattle.i7_kinds.specs.RefusalsShown.{DescribesAtLength, IsDescribedAgain, IsLedElsewhere, IsLongName, IsOffPath, IsOneTooMany, IsRefusedRoomless, IsRoomFound, IsUnsuited, IsWrong, States};
ghost use Rattle.i7_kinds.specs.Suits.{first_room, unsuited};
ghost use Rattle.i7_kinds.specs.Tales.{long_said, name_too_long, no_room, object_too_many, tale_said, text_too_long};
ghost use Rattle.i7_kinds.specs.TaleExits.{ExitsAreAsSaid};
ghost use Rattle.i7_kinds.specs.WrittenAbout.{DescriptionsAreAbout, DescriptionsAreThoseSaid};
ghost use Rattle.i7_kinds.specs.declared.knowns.Known.{Known};
ghost use Rattle.i7_kinds.specs.declared.ways.Exit.{Exit};
ghost use Rattle.i7_kinds.specs.declared.ways.Target.{Target};
ghost use Rattle.i7_claims.specs.Scans.{IsLowest, ShownBy};
ghost use Rattle.i7_claims.specs.Statements.{NameAt, named_by, stated_by};
ghost use Rattle.i7_claims.specs.declared.claim.Claim.{Claim};
ghost use Rattle.i7_claims.specs.declared.statements.NumberedSentence.{NumberedSentence};
ghost use Rattle.world_meaning.specs.declared.fault.Fault.{Fault};
ghost use Rattle.i7_sentences.specs.declared.sentence.Sentence.{Sentence};

/// An exit that a statement leads elsewhere than one before it is found at the first such statement.
pub fn exits_elsewhere_are_found()
    ensures { (statements : List NumberedSentence) → IsFound line_of_statement IsLedElsewhere statements (second_target statements) }
{}

/// A text that describes an object otherwise than one before it is found at the first such statement.
pub fn descriptions_twice_are_found()
    ensures { (parents : List (Option ℕ)) (knowns : List Known) (statements : List NumberedSentence)
        → IsFound line_of_statement (IsDescribedAgain parents knowns) statements (second_description (descriptions_of parents knowns statements)) }
{}

/// A text alone, a way or a door that the kinds don't allow is found at the first statement that states it.
pub fn wrong_kinds_are_found()
    ensures { (parents : List (Option ℕ)) (knowns : List Known) (statements : List NumberedSentence)
        → IsFound line_of_statement (λ before s. IsWrong parents knowns before s.said) statements (wrong_kind parents knowns statements) }
{}

/// A place or a property that the kinds don't allow is found at its lowest line.
pub fn unsuited_claims_are_found()
    ensures { (scope : Scope) (knowns : List Known) (claims : List Claim) → IsLowest (ShownBy (λ before c. IsUnsuited scope knowns c.fact) claims) (unsuited scope knowns claims) }
{}

/// A demand with which two kinds on no one path are demanded of an object is found at its lowest line, where the player and
/// the directions are among the objects.
pub fn demands_off_paths_are_found()
    ensures { (scope : Scope) → 13 ≤ length scope.objects → (claims : List Claim) → IsLowest (ShownBy (IsOffPath scope) claims) (off_path scope claims) }
{}

/// The player and the directions are among the objects of any sentences.
pub fn built_in_objects_are_named()
    ensures { (sentences : List Sentence) → 13 ≤ length (named_by sentences).keys }
{}

/// The object that is one too many is found at the mention that makes it so.
pub fn objects_too_many_are_found()
    ensures { (mentions : List NameAt) → IsFound line_at IsOneTooMany mentions (object_too_many mentions) }
{}

/// An object's name of too many bytes or words is found at the first mention of one.
pub fn long_names_are_found()
    ensures { (mentions : List NameAt) → IsFound line_at (λ before at. IsLongName at.name.text) mentions (name_too_long mentions) }
{}

/// A description of too many bytes is found at the first statement that describes with one.
pub fn long_descriptions_are_found()
    ensures { (parents : List (Option ℕ)) (knowns : List Known) (statements : List NumberedSentence)
        → IsFound line_of_statement (DescribesAtLength parents knowns) statements (text_too_long (descriptions_of parents knowns statements)) }
{}

/// The room that is taken for the player's is the first of the author's objects that is a room.
pub fn first_rooms_are_found()
    ensures { (parents : List (Option ℕ)) (knowns : List Known) → IsRoomFound parents knowns (first_room parents knowns) }
{}

/// A source is refused for want of a room, at line 1, just where none of the author's objects is a room.
pub fn roomless_sources_are_refused()
    ensures { (parents : List (Option ℕ)) (knowns : List Known) → IsRefusedRoomless parents knowns (no_room (first_room parents knowns)) }
{}

/// One of the sentences that mean a tale describes the object with the description that the object has: it names the
/// object, or is the text alone behind a sentence about the object, which is a room.
pub fn descriptions_are_about_objects()
    ensures { DescriptionsAreAbout }
{}

/// An object of a tale has the description with which any of the sentences that mean the tale describes it.
pub fn descriptions_are_those_said()
    ensures { DescriptionsAreThoseSaid }
{}

/// The exits of the rooms of a tale lead where any of its sentences says that states them; where none does, where the first
/// leads that implies them; and else nowhere. Those of other objects lead nowhere.
pub fn exits_lead_as_said()
    ensures { ExitsAreAsSaid }
{}

/// An exit leads where the first statement says that states it; where none does, where the first leads that implies it; and
/// else nowhere.
pub fn exits_lead_where_stated()
    ensures { (statements : List NumberedSentence) (room direction : ℕ) → IsWayOut statements (record { room = room; direction = direction }) (target_of statements room direction) }
{}

/// Where no exit is refused, all statements of one exit lead it to one target.
pub fn stated_exits_agree()
    ensures { (statements : List NumberedSentence) → second_target statements ≡ None → (exit : Exit) (a b : Target) → IsLed States statements exit a → IsLed States statements exit b → a ≡ b }
{}

/// Where the lines of sentences rise, so do those of what they state and of the mentions of their objects.
pub fn lines_rise_with_those_of_sentences()
    ensures { (sentences : List Sentence) → LinesRise (λ s. s.line) sentences → LinesRise line_of_statement (stated_by sentences) × LinesRise line_at (named_by sentences).mentions }
{}

/// Sentences that mean a tale show nothing that is refused; others are refused for the first sort of it that they show, at a
/// line that shows it, and at the lowest where their lines rise.
pub fn sentences_are_judged()
    ensures { (sentences : List Sentence) → AreJudged sentences (tale_said sentences) }
{}

/// A name or a description of sentences that is too long is found at its lowest line, where their lines rise.
pub fn what_is_too_long_is_found()
    ensures { (sentences : List Sentence) → IsFirstLong sentences (long_said sentences) }
{}

/// Sentences whose lines rise are refused in one way alone.
pub fn one_fault_is_refused()
    ensures { (sentences : List Sentence) → LinesRise (λ s. s.line) sentences → (a b : Fault) → IsRefusedFor sentences a → IsRefusedFor sentences b → a ≡ b }
{}

/// The objects of a kind of a tale have a property just where C8 lets it be said of them.
pub fn properties_said_are_kept()
    ensures { PropertiesAreKept }
{}
