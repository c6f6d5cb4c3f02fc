//! The sixty-one rules that every story has (the Standard Rules), each a function of a world and an action: what it
//! answers does just what the rule's body means, in actions too that the rule isn't about.
#![tactic(auto)]

mod answer;
mod asking;
mod by_number;
mod examining;
mod going;
mod host_fault;
mod hosts;
mod inventory;
mod listing;
mod looking;
mod numbers;
mod opening;
mod property_laws;
mod putting;
mod stored_rule;
mod switching;
mod taking;
mod texts;
mod wearing;

pub use answer::{HostAnswer, HostOutcome};
pub use by_number::standard;
pub use examining::{rule_5, rule_6, rule_7, rule_8};
pub use going::{rule_39, rule_40, rule_41, rule_42};
pub use host_fault::HostFault;
pub use hosts::HostTable;
pub use inventory::{rule_50, rule_51, rule_52, rule_53};
pub use looking::{rule_1, rule_2, rule_3, rule_4};
pub use opening::{rule_31, rule_32, rule_33, rule_34, rule_35, rule_36, rule_37, rule_38};
pub use property_laws::properties_stand_at_their_numbers;
pub use putting::{
    rule_20, rule_21, rule_22, rule_23, rule_24, rule_25, rule_26, rule_27, rule_28, rule_29,
    rule_30,
};
pub use stored_rule::{HostCall, HostRule, StandardRule, StoredRule};
pub use switching::{rule_54, rule_55, rule_56, rule_57, rule_58, rule_59, rule_60, rule_61};
pub use taking::{
    rule_9, rule_10, rule_11, rule_12, rule_13, rule_14, rule_15, rule_16, rule_17, rule_18,
    rule_19,
};
pub use wearing::{rule_43, rule_44, rule_45, rule_46, rule_47, rule_48, rule_49};
