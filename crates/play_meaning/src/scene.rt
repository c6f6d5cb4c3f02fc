//! Scenes: where each stands.

/// Whether a scene happens, and whether it ever began (*Writing with Inform*, chapter 10).
#[derive(Clone, Copy, PartialEq, Eq)]
pub struct SceneNow {
    pub happens: bool,
    pub has_begun: bool,
}
