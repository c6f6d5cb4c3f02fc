//! The definitions, computed on small stories written by hand: each clause is what one session shows.
ghost use Rattle.play_meaning.specs.ActionRows.{ball_in_box, ball_in_box_not_things_shown, ball_in_box_shown, ball_looked_at, ball_looked_at_shown, ball_on_table, ball_on_table_shown, ball_out_of_range, ball_out_of_range_shown, coin_out_of_sight, coin_out_of_sight_shown, endless_following, endless_following_shown, endless_jumping, endless_jumping_abandoned_shown, endless_jumping_shown, lamp_in_bag, lamp_in_bag_shown, parted_words, parted_words_shown, question_refused_shown, score_at_its_top, score_at_its_top_shown, seventeen_deep, seventeen_deep_shown, sixteen_deep, sixteen_deep_shown, two_boxes, two_boxes_shown, two_open_boxes, two_open_boxes_shown, weighing, weighing_shown};
ghost use Rattle.play_meaning.specs.LineRows.{asked_in_a_line_shown, ball_and_lamp, ball_and_lamp_shown, ball_wins, ball_wins_shown, much_about, much_about_shown, second_refused_shown};
ghost use Rattle.play_meaning.specs.Rows.{ends_by, refused_in, shows, shows_by_trees, shows_to_end};
ghost use Rattle.play_meaning.specs.RuleRows.{closed_box, closed_box_shown, got_it, got_it_and_goes_on, got_it_and_goes_on_shown, got_it_shown, graded, graded_shown, left_behind, left_behind_shown, listed_first, listed_first_shown, met_on_the_way, met_on_the_way_shown, open_box, open_box_shown, scenery_goes, scenery_goes_shown, scenery_stays, scenery_stays_shown, statue_spoken_for, statue_spoken_for_shown, three_rules, three_rules_shown, two_nouns, two_nouns_shown, unlisted, unlisted_shown};
ghost use Rattle.play_meaning.specs.SessionRows.{empty_hall, empty_hall_shown, enough_work, enough_work_shown, one_storm, one_storm_shown, over_at_once, over_at_once_shown, past_the_top, past_the_top_shown, scoring, scoring_shown, storms, storms_shown, sums_and_choices, sums_and_choices_shown, too_much_work, too_much_work_shown, wet_jumping, wet_jumping_shown, wet_while_happening, winning, winning_shown, without_stop, without_stop_shown};
ghost use Rattle.play_meaning.specs.WorldRows.{bulb_of_closed_box, bulb_of_closed_box_shown, closed_gate, closed_gate_opened_shown, closed_gate_shown, dark_cave, dark_cave_shown, hall_and_garden, hall_and_garden_nowhere_shown, hall_and_garden_shown, jar_in_tank, jar_in_tank_shown, lamp_here, lamp_here_shown, lamp_in_closed_box, lamp_in_closed_box_shown, lamp_in_jar, lamp_in_jar_shown, lamp_of_bob, lamp_of_bob_shown, many_things, many_things_put_shown, many_things_shown, many_things_switched_shown, open_box_in_closed_sack, open_box_in_closed_sack_shown};
ghost use Rattle.std.specs.Prelude.{[], ◌∷◌, Some, codes};
ghost use Rattle.world_meaning.specs.declared.session.Ending.TheVariants.{EndOfInput, Quit, Story};

/// The more specific rule is asked first, but for rules that are listed first; an unlisted one is not asked.
pub fn rules_stand_in_order()
    ensures three { shows three_rules_shown three_rules }
    ensures closed { shows closed_box_shown closed_box }
    ensures opened { shows open_box_shown open_box }
    ensures listed { shows listed_first_shown listed_first }
    ensures unlisted { shows unlisted_shown unlisted }
    ensures graded { shows graded_shown graded }
    ensures nouns { shows two_nouns_shown two_nouns }
    ensures spoken_for { shows statue_spoken_for_shown statue_spoken_for }
    ensures stays { shows scenery_stays_shown scenery_stays }
    ensures goes { shows scenery_goes_shown scenery_goes }
{}

/// A rule's decision ends the action, and each rule is asked in the world of its moment.
pub fn rules_decide()
    ensures after { shows got_it_shown got_it }
    ensures goes_on { shows got_it_and_goes_on_shown got_it_and_goes_on }
    ensures behind { shows left_behind_shown left_behind }
    ensures met { shows met_on_the_way_shown met_on_the_way }
{}

/// What an action passes: what it asks of its nouns, taking first, darkness, and actions within actions.
pub fn actions_pass_their_stages()
    ensures taken_first { shows weighing_shown weighing }
    ensures dark { shows lamp_in_bag_shown lamp_in_bag }
    ensures unseen { shows coin_out_of_sight_shown coin_out_of_sight }
    ensures too_deep { shows endless_jumping_shown endless_jumping }
    ensures sixteen { shows sixteen_deep_shown sixteen_deep }
    ensures seventeen { shows seventeen_deep_shown seventeen_deep }
    ensures following { shows endless_following_shown endless_following }
    ensures top { shows score_at_its_top_shown score_at_its_top }
    ensures condition { shows ball_out_of_range_shown ball_out_of_range }
{}

/// What commands mean, and what is asked where they mean several things.
pub fn commands_are_read()
    ensures verbs { shows ball_on_table_shown ball_on_table }
    ensures within { shows ball_in_box_shown ball_in_box }
    ensures not_things { shows ball_in_box_not_things_shown ball_in_box }
    ensures described { shows ball_looked_at_shown ball_looked_at }
    ensures shortest { shows parted_words_shown parted_words }
    ensures second_asked { shows two_open_boxes_shown two_open_boxes }
    ensures question_refused { refused_in (Some 0 ∷ []) question_refused_shown two_boxes }
    ensures asked { shows two_boxes_shown two_boxes }
{}

/// A line may hold several commands, and a command may be for all things.
pub fn lines_hold_several_commands()
    ensures all { shows ball_and_lamp_shown ball_and_lamp }
    ensures refused { refused_in (Some 1 ∷ []) second_refused_shown ball_and_lamp }
    ensures ended { shows_to_end ball_wins_shown [] ball_wins }
    ensures which { shows much_about_shown much_about }
    ensures asked { shows asked_in_a_line_shown two_boxes }
{}

/// Scenes begin and end, a story ends, and nothing follows its end.
pub fn scenes_and_stories_end()
    ensures once { shows one_storm_shown one_storm }
    ensures again { shows storms_shown storms }
    ensures during { shows wet_jumping_shown wet_jumping }
    ensures happening { shows wet_jumping_shown wet_while_happening }
    ensures by_story { ends_by (codes "jump" ∷ codes "look" ∷ []) Story winning }
    ensures by_quit { ends_by (codes "look" ∷ codes "q" ∷ []) Quit empty_hall }
    ensures by_input { ends_by (codes "look" ∷ []) EndOfInput empty_hall }
    ensures won { shows_to_end winning_shown (codes "look" ∷ []) winning }
    ensures at_once { shows_to_end over_at_once_shown (codes "look" ∷ []) over_at_once }
{}

/// Undo brings back the world before the last kept turn, eight times; an action out of world and an abandoned turn
/// are none.
pub fn turns_are_undone()
    ensures eight { shows empty_hall_shown empty_hall }
    ensures abandoned { shows endless_jumping_abandoned_shown endless_jumping }
    ensures out_of_world { shows scoring_shown scoring }
{}

/// What texts say: sums, choices and quotes; a number out of range abandons the turn.
pub fn texts_are_said()
    ensures choices { shows sums_and_choices_shown sums_and_choices }
    ensures range { shows past_the_top_shown past_the_top }
    ensures quotes { shows without_stop_shown without_stop }
{}

/// Ways lead from room to room, and a closed door lets nobody through.
pub fn ways_and_doors_are_gone_through()
    ensures rooms { shows hall_and_garden_shown hall_and_garden }
    ensures nowhere { shows hall_and_garden_nowhere_shown hall_and_garden }
    ensures closed { shows closed_gate_shown closed_gate }
    ensures opened { shows closed_gate_opened_shown closed_gate }
{}

/// Where light comes from, and what it shows.
pub fn light_shows_things()
    ensures dark { shows dark_cave_shown dark_cave }
    ensures lamp { shows lamp_here_shown lamp_here }
    ensures closed { shows lamp_in_closed_box_shown lamp_in_closed_box }
    ensures glass { shows lamp_in_jar_shown lamp_in_jar }
    ensures within_closed { shows open_box_in_closed_sack_shown open_box_in_closed_sack }
    ensures within_glass { shows jar_in_tank_shown jar_in_tank }
    ensures part { shows bulb_of_closed_box_shown bulb_of_closed_box }
    ensures carried { shows lamp_of_bob_shown lamp_of_bob }
{}

/// What the player does with things.
pub fn things_are_handled()
    ensures worn { shows many_things_shown many_things }
    ensures put { shows many_things_put_shown many_things }
    ensures switched { shows many_things_switched_shown many_things }
{}

/// A command may do 10,000 units of work, and not one more.
pub fn work_has_an_end()
    ensures enough { shows_by_trees enough_work_shown enough_work }
    ensures one_more { shows_by_trees too_much_work_shown too_much_work }
{}
