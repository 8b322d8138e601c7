//! Counts of gates, in a file of their own, since definitions cite them.

/// The gates in the cones of goals.
#[derive(Clone, Copy, Debug, PartialEq, Eq)]
pub struct GateCounts {
    /// How many there are together: a gate counts for each cone that it is in.
    pub in_cones: u64,
    /// How many different ones there are.
    pub distinct: u64,
}
