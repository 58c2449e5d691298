//! Laws: no shaper has rules that the laws of `script_plan` refuse.
ghost use Rattle.tests_pipeline.specs.Refused.{DroppingIsRefused, LimitsAreRefused, ReversingIsRefused};

/// No shaper that reverses a text before it is normalised meets the law of its rules.
pub fn law_reversing_is_refused()
    ensures { ReversingIsRefused }
{}

/// No shaper that drops the first character of a text, and its cluster, meets the law of its rules.
pub fn law_dropping_is_refused()
    ensures { DroppingIsRefused }
{}

/// No shaper whose text depends on the limit of length, beside a refusal, meets the law of limits.
pub fn law_limits_are_refused()
    ensures { LimitsAreRefused }
{}
