/// How far an input has been taken.
#[derive(Clone, Copy)]
pub struct Taking {
    /// where the next read begins
    pub at: usize,
    /// how many bytes have been taken
    pub taken: u128,
    /// whether the last read gave the end
    pub ended: bool,
}
