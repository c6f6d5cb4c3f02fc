//! Scenes of the author's (*Writing with Inform*, chapter 10).
use crate::tree::condition::Condition;

/// A scene whose words are resolved: whether it may begin again, and on what conditions it begins and ends, if it does.
#[derive(Drop)]
pub struct MeantScene {
    pub recurs: bool,
    pub begins: Option<Condition>,
    pub ends: Option<Condition>,
}
