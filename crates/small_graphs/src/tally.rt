//! What was tried so far.

/// How many programs and tables of weights were tried, and how many trials came to something wrong.
#[derive(Drop)]
pub struct Tally {
    pub programs: u64,
    pub tables: u64,
    pub wrong: u64,
}

impl Tally {
    /// Nothing so far.
    pub fn new() -> Tally {
        Tally {
            programs: 0,
            tables: 0,
            wrong: 0,
        }
    }

    /// A program more.
    pub fn count_program(&mut self) {
        self.programs = self.programs.saturating_add(1);
    }

    /// A table of weights more.
    pub fn count_table(&mut self) {
        self.tables = self.tables.saturating_add(1);
    }

    /// What a trial came to.
    pub fn judge(&mut self, is_right: bool) {
        if !is_right {
            self.wrong = self.wrong.saturating_add(1);
        }
    }
}
