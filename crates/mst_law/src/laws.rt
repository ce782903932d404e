//! The laws, lowest first.

ghost use Rattle.mst_law.specs.Laws.{CompleteLinkLaw, CoveringLaw, FaultLaw, FillingLaw, OneRootLaw, OneViewLaw, ReplayLaw, SoundLinkLaw};

/// The filling law: a map with the root of a well-laid list fills it, unless different blocks share a digest.
pub fn filling_law()
    ensures { FillingLaw }
{}

/// The replay law: what fills a guarded list with its operations undone, on different keys, plays to what fills the list.
pub fn replay_law()
    ensures { ReplayLaw }
{}

/// A well-laid list and a map that fills it have one root.
pub fn one_root_law()
    ensures { OneRootLaw }
{}

/// The covering law: where operations, at least one and on different keys, play from map to map and their cover is there,
/// there is a view that the later map fills and from which they lead back, unless different blocks share a digest.
pub fn covering_law()
    ensures { CoveringLaw }
{}

/// At most one list is a view.
pub fn one_view_law()
    ensures { OneViewLaw }
{}

/// Where a block is at fault, no list is a view.
pub fn fault_law()
    ensures { FaultLaw }
{}

/// Soundness of a link: linked operations on different keys play on every map with the former root and give one with the
/// later root, unless different blocks share a digest.
pub fn sound_link_law()
    ensures { SoundLinkLaw }
{}

/// Completeness of a link: operations, at least one and on different keys, that play and whose cover is there are linked,
/// unless different blocks share a digest.
pub fn complete_link_law()
    ensures { CompleteLinkLaw }
{}
