//! The limits of a retry's numbers beside those of `base_types`; contracts cite them by the same names.

/// The digits of a retry's limit, and of a backoff's factor.
pub const MOST_DIGITS: usize = 4;

/// The factor of a backoff.
pub const LEAST_FACTOR: u64 = 1;
