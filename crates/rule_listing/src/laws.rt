//! What holds of the rules that are sought.
ghost use Rattle.std.specs.Prelude.{◌≡◌, ℕ, Option, Some};
ghost use Rattle.rule_index.specs.Buckets.{bucket_of};
ghost use Rattle.rule_listing.specs.Admitted.{index_object, rules_sought};
ghost use Rattle.story_format.specs.declared.tables.Tables.{Tables};

/// Where nothing is left open, they are those that the player's index gives for the action, the noun and the room.
pub fn what_is_told_whole_is_what_the_index_asks()
    ensures { (t : Tables) (book action : ℕ) (noun room : Option ℕ) →
        rules_sought t (record { action = Some action; noun = index_object noun; room = index_object room }) book ≡ bucket_of t book action noun room }
{}
