//! Counts of rows.

/// How many rows there were, and of how many what was printed.
#[derive(Clone, Copy, Default)]
pub(crate) struct Counts {
    pub(crate) rows: usize,
    pub(crate) wrong: usize,
}

impl Counts {
    /// The counts of both.
    pub(crate) fn and(self, more: Counts) -> Counts {
        Counts {
            rows: self.rows.saturating_add(more.rows),
            wrong: self.wrong.saturating_add(more.wrong),
        }
    }
}
