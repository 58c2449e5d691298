//! Laws of our own, which rustybuzz has not: which pipeline stages keep the parts of a text, and which reverse no list.
ghost use Rattle.buffer_parts.specs.StageLaws.{FirstRulesKeepParts, PlainStagesKeepParts, RunsHaveParts, StagesKeepParts, StagesStayUnturned};

/// Two stages that keep the parts of a text keep them one after the other.
pub fn law_stages_keep_parts()
    ensures { StagesKeepParts }
{}

/// Two stages that reverse no list reverse none one after the other.
pub fn law_stages_stay_unturned()
    ensures { StagesStayUnturned }
{}

/// A stage that keeps the parts of a text whatever its clusters are keeps them, and reverses no list.
pub fn law_plain_stages_keep_parts()
    ensures { PlainStagesKeepParts }
{}

/// After a stage that keeps the parts of a text, clusters that were in order are the parts of its events.
pub fn law_runs_have_parts()
    ensures { RunsHaveParts }
{}

/// The first of some rules that doesn't pass keeps the parts of a text where each rule does.
pub fn law_first_rules_keep_parts()
    ensures { FirstRulesKeepParts }
{}
