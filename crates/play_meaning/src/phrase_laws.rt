//! The definitions of phrases, computed: each clause says what a body says and how it leaves off.
ghost use Rattle.play_meaning.specs.PhraseRows.{does, furnished_hall, pantry, seen_and_touched, counted, silently, at_the_bounds, either_and_both, cannot_hold, carries_and_wears, compared, descriptions, descriptions_said, encloses, fails, has, held_by_one, in_itself, instead, instead_behind_end, lists, moved, moved_to_player, names, names_with_an, no_decision, no_direction, not_held, nothing_held, nowhere, of_nothing, player_in_rooms, repeat_and_move, repeat_in_repeat, repeated, same, succeeds, sums, weights};
ghost use Rattle.play_meaning.specs.declared.outcome.Flow.TheVariants.{GoesOn, NoDecision, Decides};
ghost use Rattle.play_meaning.specs.declared.outcome.Outcome.TheVariants.{Failure, Success};
ghost use Rattle.std.specs.Prelude.{[], codes};

/// Conditions on objects, on nothing, on descriptions and numbers.
pub fn conditions_hold()
    ensures of_nothing { does of_nothing (codes "n n y n y n y") GoesOn furnished_hall }
    ensures descriptions { does descriptions (codes "y n y n n y") GoesOn furnished_hall }
    ensures not_held { does not_held (codes "n y n y y") GoesOn furnished_hall }
    ensures held_by_one { does held_by_one (codes "y n y n y y y n y y n n") GoesOn furnished_hall }
    ensures same { does same (codes "y n y y y y y n y n n y") GoesOn furnished_hall }
    ensures no_direction { does no_direction (codes "y y n y") GoesOn furnished_hall }
    ensures has { does has (codes "y y n y y n y n n n n n") GoesOn furnished_hall }
    ensures encloses { does encloses (codes "y y y y y n n n y y n n n") GoesOn furnished_hall }
    ensures either_and_both { does either_and_both (codes "y n n") GoesOn furnished_hall }
    ensures seen_and_touched { does seen_and_touched (codes "n ny y") GoesOn furnished_hall }
    ensures compared { does compared (codes "y n n y y n y n y y n") GoesOn furnished_hall }
{}

/// What `now` and `move` change, and what they may not change.
pub fn phrases_change_the_world()
    ensures carries_and_wears { does carries_and_wears (codes "yourself, box, desk and Bob; nothing; hat; coin; ball and lamp; knob; cup") GoesOn furnished_hall }
    ensures nowhere { does nowhere (codes "yourself, desk and Bob; ball; coin; hat; lamp; knob; nothing") GoesOn furnished_hall }
    ensures cannot_hold { does cannot_hold (codes "yourself, box, desk and Bob; ball; coin; hat; lamp; knob; cup") GoesOn furnished_hall }
    ensures nothing_held { does nothing_held (codes "yourself, box, desk and Bob; ball; coin; hat; lamp; knob; cup") GoesOn furnished_hall }
    ensures player_in_rooms { does player_in_rooms (codes "yourself, box, desk and Bob; ball; coin; hat; lamp; knob; cup") GoesOn furnished_hall }
    ensures in_itself { does in_itself (codes "yourself, box, desk and Bob; ball; coin; hat; lamp; knob; cup") GoesOn furnished_hall }
    ensures moved { does moved (codes "yourself, box, desk, Bob and coin; ball and lamp; cup; nothing; nothing; knob; hat") GoesOn furnished_hall }
    ensures moved_to_player { does moved_to_player (codes "yourself, box, desk, cup and Bob; nothing; coin; hat; ball and lamp; knob; nothing") GoesOn furnished_hall }
    ensures weights { does weights (codes "5 -5") GoesOn furnished_hall }
{}

/// Repeats take their objects as their turn comes, and a body leaves off where a phrase ends it.
pub fn bodies_are_done()
    ensures repeated { does repeated (codes "yourself box desk Bob ") GoesOn furnished_hall }
    ensures repeat_and_move { does repeat_and_move (codes "nothing; yourself, box, desk, Bob and rock") GoesOn furnished_hall }
    ensures repeat_in_repeat { does repeat_in_repeat (codes "yourself Bob Hall; yourself Bob Yard; ") GoesOn furnished_hall }
    ensures silently { does silently (codes "Dropped.\n") GoesOn furnished_hall }
    ensures succeeds { does succeeds (codes "a") (Decides Success) furnished_hall }
    ensures fails { does fails (codes "a") (Decides Failure) furnished_hall }
    ensures no_decision { does no_decision (codes "a") NoDecision furnished_hall }
    ensures instead { does instead (codes "b") (Decides Failure) furnished_hall }
    ensures instead_behind_end { does instead_behind_end [] (Decides Success) furnished_hall }
{}

/// Names with their articles, lists, descriptions, and numbers.
pub fn names_and_numbers_are_said()
    ensures at_the_bounds { does at_the_bounds (codes "-2147483648 2147483647") GoesOn furnished_hall }
    ensures counted { does counted (codes "1 4") GoesOn furnished_hall }
    ensures sums { does sums (codes "7 -2 25 5 12 -5") GoesOn furnished_hall }
    ensures names { does names (codes "ball the ball The ball a ball A ball") GoesOn pantry }
    ensures names_with_an { does names_with_an (codes "apple the apple The apple an apple An apple") GoesOn pantry }
    ensures lists { does lists (codes "yourself, ball, apple, sand, Bob, lamp and box; yourself, a ball, an apple, some sand, Bob, a lamp and a box; yourself, the ball, the apple, the sand, Bob, the lamp and the box.\n") GoesOn pantry }
    ensures descriptions_said { does descriptions_said (codes "<Round.\n><Big\n><>") GoesOn pantry }
{}
