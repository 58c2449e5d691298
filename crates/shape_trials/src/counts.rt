//! Counts of the cases of a stream.

use crate::breaks::Tried;
use crate::promise::Promise;

/// What a case showed.
#[derive(Clone, Copy)]
pub(crate) enum Outcome {
    /// No lawful tables with a font, or no settings, stand before its text.
    PassedOver,
    /// What its answers showed.
    Tested(Tested),
}

/// What the answers to a case showed.
#[derive(Clone, Copy)]
pub(crate) struct Tested {
    /// The first promise that an answer breaks.
    pub(crate) broken: Option<Promise>,
    /// How many breaks of the text were tried, and at how many it isn't sure whether pieces may differ.
    pub(crate) breaks: u64,
    pub(crate) unsure: u64,
}

impl Tested {
    /// With the breaks that were tried at one more level.
    pub(crate) fn with_breaks(self, tried: Tried) -> Tested {
        let broken = if tried.is_different {
            self.broken.or(Some(Promise::Breaks))
        } else {
            self.broken
        };
        Tested {
            broken,
            breaks: self.breaks.saturating_add(tried.count),
            unsure: self.unsure.saturating_add(tried.unsure),
        }
    }
}

/// How many cases there were.
#[derive(Clone, Copy, Default)]
pub(crate) struct Counts {
    pub(crate) cases: u64,
    /// How many of them stood over lawful tables, and were tested.
    pub(crate) tested: u64,
    /// How many breaks of their texts were tried.
    pub(crate) breaks: u64,
    /// At how many of these pieces differ, and may do so.
    pub(crate) unsure: u64,
    pub(crate) wrong: u64,
}

impl Counts {
    /// The counts after one more case.
    pub(crate) fn with(self, outcome: Outcome) -> Counts {
        let cases = self.cases.saturating_add(1);
        match outcome {
            Outcome::PassedOver => Counts { cases, ..self },
            Outcome::Tested(tested) => Counts {
                cases,
                tested: self.tested.saturating_add(1),
                breaks: self.breaks.saturating_add(tested.breaks),
                unsure: self.unsure.saturating_add(tested.unsure),
                wrong: self
                    .wrong
                    .saturating_add(u64::from(tested.broken.is_some())),
            },
        }
    }
}
