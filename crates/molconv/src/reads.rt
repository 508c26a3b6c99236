/// What is known of the reads of an input.
#[derive(Clone, Copy)]
pub struct ReadCounts {
    /// how many bytes have been taken
    pub taken: u128,
    /// whether the last read gave the end
    pub ended: bool,
    /// how many reads have failed
    pub faults: u64,
}
