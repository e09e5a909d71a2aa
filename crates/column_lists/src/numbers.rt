//! The numbers that a list decoding works with.

/// What a list decoding interpolates, and what that costs.
#[derive(Copy, Clone)]
pub struct Plan {
    /// The multiplicity of the zero at each point.
    pub m: u32,
    /// The greatest weighted degree.
    pub d: u32,
    /// The number of equations.
    pub cost: u64,
}
