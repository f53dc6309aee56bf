// What came of a look, and of all.
use std::fmt;

#[derive(Clone, Copy)]
pub(crate) enum Verdict {
    // Clear, as it has to be.
    Clear,
    // Blocked, as it has to be.
    Blocked,
    // The line touches filled cells and crosses none, so it may be either.
    Open,
    // The search has it otherwise.
    Wrong(&'static str),
}

#[derive(Clone, Copy, Default)]
pub(crate) struct Tally {
    clear: u32,
    blocked: u32,
    open: u32,
    wrong: u32,
}

impl Tally {
    pub(crate) fn count(&mut self, verdict: &Verdict) {
        let count = match verdict {
            Verdict::Clear => &mut self.clear,
            Verdict::Blocked => &mut self.blocked,
            Verdict::Open => &mut self.open,
            Verdict::Wrong(_) => &mut self.wrong,
        };
        *count = count.saturating_add(1);
    }

    pub(crate) fn is_good(&self) -> bool {
        self.wrong == 0
    }
}

impl fmt::Display for Tally {
    fn fmt<W: fmt::Write>(&self, f: &mut fmt::Formatter<W>) -> fmt::Result {
        let Tally {
            clear,
            blocked,
            open,
            wrong,
        } = self;
        write!(
            f,
            "{clear} looks clear and {blocked} blocked, as the search over all cells has it; {open} only touch filled cells; {wrong} wrong"
        )
    }
}
