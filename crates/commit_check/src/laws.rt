//! Laws of commits, each the contract of a function that does nothing.

ghost use Rattle.commit_check.specs.Laws.{CommitsAreDecided, CoveredLeads, EditsAreFormed, LeadingReplays, LinksAreDecided, RefusalsAreUnjudged, StepsAreDecided};

/// What leads from root to root replays on every map with the former root, and gives one with the later root, unless
/// different blocks share a digest.
pub fn leading_replays()
    ensures { LeadingReplays }
{}

/// What is covered leads from root to root, unless different blocks share a digest.
pub fn covered_leads()
    ensures { CoveredLeads }
{}

/// Operations lead from root to root, or exactly one refusal stops them.
pub fn steps_are_decided()
    ensures { StepsAreDecided }
{}

/// There is no gap and an event leads from root to root, or exactly one refusal stops it.
pub fn links_are_decided()
    ensures { LinksAreDecided }
{}

/// No refusal applies to an event, or exactly one is the first.
pub fn commits_are_decided()
    ensures { CommitsAreDecided }
{}

/// No refusal that applies to an event is one that judges alone show.
pub fn refusals_are_unjudged()
    ensures { RefusalsAreUnjudged }
{}

/// The edits of an event to whose fields no refusal applies are well formed and on different keys.
pub fn edits_are_formed()
    ensures { EditsAreFormed }
{}
