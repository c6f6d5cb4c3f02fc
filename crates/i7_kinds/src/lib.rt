//! What a source's sentences declare: its objects by their names, the refusals of what sentences may not
//! say together, and the tale that they mean.
#![tactic(auto)]

mod actions;
mod author_kinds;
mod claim_laws;
mod cycles;
mod declaring;
mod descriptions;
mod doors;
mod entries;
mod faults;
mod grants;
mod kind_laws;
mod kinds;
mod knowns;
mod lent_text;
mod limits;
mod making;
mod numbers;
mod objects;
mod places;
mod properties;
mod ranks;
mod refusal_laws;
mod scope;
mod suits;
mod tale;
mod value_kinds;
mod values;
mod ways;

pub use claim_laws::{
    cycles_are_found, descriptions_are_written, doors_are_those_demanded, doors_twice_are_found,
    holder_cycles_are_found, kinds_too_many_are_found, longer_names_are_found,
    second_places_are_found, unknown_kinds_are_found, values_twice_are_found,
};
pub use i7_claims::{
    books_twice_are_found, lists_twice_are_found, long_lists_are_found, names_too_many_are_found,
    names_twice_are_found,
};
pub use kind_laws::{
    kinds_are_the_deepest_demanded, kinds_lie_as_claimed, kinds_meant_are_one,
    order_of_sentences_is_nothing_to_kinds, order_of_sentences_is_nothing_to_objects,
};
pub use refusal_laws::{
    built_in_objects_are_named, demands_off_paths_are_found, descriptions_are_about_objects,
    descriptions_are_those_said, descriptions_twice_are_found, exits_elsewhere_are_found,
    exits_lead_as_said, exits_lead_where_stated, first_rooms_are_found,
    lines_rise_with_those_of_sentences, long_descriptions_are_found, long_names_are_found,
    objects_too_many_are_found, one_fault_is_refused, properties_said_are_kept,
    roomless_sources_are_refused, sentences_are_judged, stated_exits_agree,
    unsuited_claims_are_found, what_is_too_long_is_found, wrong_kinds_are_found,
};
pub use tale::{TaleSaid, tale_of};
