//! The consequence of a failed assertion.

/// The consequence of a failed assertion.
#[derive(Clone, Copy)]
pub enum Action {
    Warning = 0,
    Error = 1,
}
