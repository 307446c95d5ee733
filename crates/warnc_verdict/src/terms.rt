//! How a cell's tape is judged by its orders.

/// How a cell's tape is judged by its orders, and what else is told.
#[derive(Clone, Copy, Debug, PartialEq, Eq)]
pub struct VerdictTerms {
    /// By how many slots all comes later on the air than its answer.
    pub delay: u16,
    /// How many slots the tape is to have, if that is asked.
    pub slots: Option<u16>,
    /// Whether it is told how late each message comes and ends.
    pub lags: bool,
}
