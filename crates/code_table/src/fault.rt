//! Why there is no table of codes.

/// Why texts, rules and scenes have no table of codes.
#[derive(Clone, Copy, Debug, PartialEq, Eq)]
pub enum TableFault {
    /// What one of them says doesn't fit, or bytes can't say its codes and the tests that these name.
    TooLong,
    /// There are more than 65,535 codes.
    TooMany,
    Memory,
}
