//! What holds of orders.
ghost use Rattle.rule_order.specs.OrderLaws.{HandingIsNothing, HasOneOrder, IsConsultedSo};

/// Where each listing sentence is about one rule, a rulebook has one order, and that is the one in which it is consulted.
pub fn one_order()
    ensures one { HasOneOrder }
    ensures consulted { IsConsultedSo }
{}

/// Rules stand in one order, in whatever order they are handed in, as long as of two equally specific ones of a rulebook the
/// first stays the first.
pub fn order_of_handing_is_nothing()
    ensures { HandingIsNothing }
{}
