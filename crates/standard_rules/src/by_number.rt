//! A standard rule by its number.
ghost use Rattle.std.specs.Prelude.{◌≤◌, IfOk};
ghost use Rattle.standard_rules.specs.Answers.{HasEffect};

use crate::answer::HostAnswer;
use crate::examining::{rule_5, rule_6, rule_7, rule_8};
use crate::going::{rule_39, rule_40, rule_41, rule_42};
use crate::inventory::{rule_50, rule_51, rule_52, rule_53};
use crate::looking::{rule_1, rule_2, rule_3, rule_4};
use crate::opening::{rule_31, rule_32, rule_33, rule_34, rule_35, rule_36, rule_37, rule_38};
use crate::putting::{
    rule_20, rule_21, rule_22, rule_23, rule_24, rule_25, rule_26, rule_27, rule_28, rule_29,
    rule_30,
};
use crate::switching::{rule_54, rule_55, rule_56, rule_57, rule_58, rule_59, rule_60, rule_61};
use crate::taking::{
    rule_9, rule_10, rule_11, rule_12, rule_13, rule_14, rule_15, rule_16, rule_17, rule_18,
    rule_19,
};
use crate::wearing::{rule_43, rule_44, rule_45, rule_46, rule_47, rule_48, rule_49};
use play_meaning::ActionNow;
use std::alloc::{AllocError, Global};
use world_store::World;

/// A rule of looking and examining.
fn looking_rule(
    alloc: Global,
    id: u8,
    world: &World,
    now: &ActionNow,
) -> Result<HostAnswer, AllocError>
    requires low { 1 ≤ id }
    requires high { id ≤ 8 }
    ensures { IfOk result (λ answer. HasEffect id world.now now.now answer) }
{
    match id {
        1 => rule_1(alloc, world, now),
        2 => rule_2(alloc, world, now),
        3 => rule_3(alloc, world, now),
        4 => rule_4(alloc, world, now),
        5 => rule_5(alloc, world, now),
        6 => rule_6(alloc, world, now),
        7 => rule_7(alloc, world, now),
        _ => rule_8(alloc, world, now),
    }
}

/// A rule of taking and dropping.
fn taking_rule(
    alloc: Global,
    id: u8,
    world: &World,
    now: &ActionNow,
) -> Result<HostAnswer, AllocError>
    requires low { 9 ≤ id }
    requires high { id ≤ 19 }
    ensures { IfOk result (λ answer. HasEffect id world.now now.now answer) }
{
    match id {
        9 => rule_9(alloc, world, now),
        10 => rule_10(alloc, world, now),
        11 => rule_11(alloc, world, now),
        12 => rule_12(alloc, world, now),
        13 => rule_13(alloc, world, now),
        14 => rule_14(alloc, world, now),
        15 => rule_15(alloc, world, now),
        16 => rule_16(alloc, world, now),
        17 => rule_17(alloc, world, now),
        18 => rule_18(alloc, world, now),
        _ => rule_19(alloc, world, now),
    }
}

/// A rule of putting and inserting.
fn putting_rule(
    alloc: Global,
    id: u8,
    world: &World,
    now: &ActionNow,
) -> Result<HostAnswer, AllocError>
    requires low { 20 ≤ id }
    requires high { id ≤ 30 }
    ensures { IfOk result (λ answer. HasEffect id world.now now.now answer) }
{
    match id {
        20 => rule_20(alloc, world, now),
        21 => rule_21(alloc, world, now),
        22 => rule_22(alloc, world, now),
        23 => rule_23(alloc, world, now),
        24 => rule_24(alloc, world, now),
        25 => rule_25(alloc, world, now),
        26 => rule_26(alloc, world, now),
        27 => rule_27(alloc, world, now),
        28 => rule_28(alloc, world, now),
        29 => rule_29(alloc, world, now),
        _ => rule_30(alloc, world, now),
    }
}

/// A rule of opening, closing and going.
fn opening_rule(
    alloc: Global,
    id: u8,
    world: &World,
    now: &ActionNow,
) -> Result<HostAnswer, AllocError>
    requires low { 31 ≤ id }
    requires high { id ≤ 42 }
    ensures { IfOk result (λ answer. HasEffect id world.now now.now answer) }
{
    match id {
        31 => rule_31(alloc, world, now),
        32 => rule_32(alloc, world, now),
        33 => rule_33(alloc, world, now),
        34 => rule_34(alloc, world, now),
        35 => rule_35(alloc, world, now),
        36 => rule_36(alloc, world, now),
        37 => rule_37(alloc, world, now),
        38 => rule_38(alloc, world, now),
        39 => rule_39(alloc, world, now),
        40 => rule_40(alloc, world, now),
        41 => rule_41(alloc, world, now),
        _ => rule_42(alloc, world, now),
    }
}

/// A rule of wearing, taking inventory, waiting and jumping.
fn wearing_rule(
    alloc: Global,
    id: u8,
    world: &World,
    now: &ActionNow,
) -> Result<HostAnswer, AllocError>
    requires low { 43 ≤ id }
    requires high { id ≤ 53 }
    ensures { IfOk result (λ answer. HasEffect id world.now now.now answer) }
{
    match id {
        43 => rule_43(alloc, world, now),
        44 => rule_44(alloc, world, now),
        45 => rule_45(alloc, world, now),
        46 => rule_46(alloc, world, now),
        47 => rule_47(alloc, world, now),
        48 => rule_48(alloc, world, now),
        49 => rule_49(alloc, world, now),
        50 => rule_50(alloc, world, now),
        51 => rule_51(alloc, world, now),
        52 => rule_52(alloc, world, now),
        _ => rule_53(alloc, world, now),
    }
}

/// A rule of switching.
fn switching_rule(
    alloc: Global,
    id: u8,
    world: &World,
    now: &ActionNow,
) -> Result<HostAnswer, AllocError>
    requires low { 54 ≤ id }
    requires high { id ≤ 61 }
    ensures { IfOk result (λ answer. HasEffect id world.now now.now answer) }
{
    match id {
        54 => rule_54(alloc, world, now),
        55 => rule_55(alloc, world, now),
        56 => rule_56(alloc, world, now),
        57 => rule_57(alloc, world, now),
        58 => rule_58(alloc, world, now),
        59 => rule_59(alloc, world, now),
        60 => rule_60(alloc, world, now),
        _ => rule_61(alloc, world, now),
    }
}

/// What the standard rule of a number answers, counted from 1, in the order of the Standard Rules.
///
/// # Errors
///
/// Want of memory alone.
pub fn standard(
    alloc: Global,
    id: u8,
    world: &World,
    now: &ActionNow,
) -> Result<HostAnswer, AllocError>
    requires low { 1 ≤ id }
    requires high { id ≤ 61 }
    ensures { IfOk result (λ answer. HasEffect id world.now now.now answer) }
{
    match id {
        1..=8 => looking_rule(alloc, id, world, now),
        9..=19 => taking_rule(alloc, id, world, now),
        20..=30 => putting_rule(alloc, id, world, now),
        31..=42 => opening_rule(alloc, id, world, now),
        43..=53 => wearing_rule(alloc, id, world, now),
        _ => switching_rule(alloc, id, world, now),
    }
}
