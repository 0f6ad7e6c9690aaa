//! The limits of what workflows say, each in one place; contracts cite them by the same names.

/// The digits by which a name is made from its prefix.
pub const POSITION_DIGITS: usize = 5;

/// The least priority: priorities are numbers of 32 bits.
pub const LEAST_PRIORITY: i64 = -2_147_483_648;

/// The greatest priority.
pub const MOST_PRIORITY: i64 = 2_147_483_647;
