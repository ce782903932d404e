//! What a commit makes of what is held.

ghost use Rattle.std.specs.Prelude.{◌≡◌, IfOk, OnOk, OnErr, IsOkAnd, Ok, Some, None, true, false, ℕ, List};
ghost use Rattle.mst_list.specs.declared.item.Item.{Item};
ghost use Rattle.mirror.specs.Held.{Continues, IsAfterCommit};
ghost use Rattle.mirror.specs.Playing.{IsPlayableAs};

use crate::holding::Holding;
use at_cid::Memory;
use at_event::CommitEvent;
use at_syntax::Tid;
use mst_list::{OpList, PlayFault};
use whole_map::WholeMap;

fn is_rev(since: Option<Tid>, rev: Option<Tid>) -> bool
    ensures same { result ≡ true → since ≡ rev }
    ensures back { since ≡ rev → result ≡ true }
{
    match (since, rev) {
        (Some(since), Some(rev)) => since == rev,
        (None, None) => true,
        _ => false,
    }
}

// Whether a commit continues a map that is held under a revision. Where it does, its edits are played on the map.
fn continues(
    commit: &CommitEvent,
    edits: &Option<OpList>,
    rev: Option<Tid>,
    map: &mut WholeMap,
) -> Result<bool, Memory>
    requires { IsPlayableAs commit.now edits.now }
    ensures yes { result ≡ Ok true → Continues commit.now rev map.old map.new }
    ensures no { result ≡ Ok false → (t : List Item) → Continues commit.now rev map.old t → ⊥ }
    ensures same { OnErr result (map.new ≡ map.old) }
{
    let Some(edits) = edits else {
        return Ok(false);
    };
    if !is_rev(commit.since, rev) {
        return Ok(false);
    }
    match map.play(edits) {
        Ok(()) => Ok(true),
        Err(PlayFault::Clash(_)) => Ok(false),
        Err(PlayFault::Memory) => Err(Memory),
    }
}

impl Holding {
    /// Takes a commit with its edits. Where it continues the map that is held, the edits are played on that map in place.
    pub(crate) fn apply(
        &mut self,
        commit: &CommitEvent,
        edits: &Option<OpList>,
    ) -> Result<(), Memory>
        requires { IsPlayableAs commit.now edits.now }
        ensures after { OnOk result (IsAfterCommit commit.now self.old self.new) }
        ensures same { OnErr result (self.new ≡ self.old) }
    {
        match self {
            Holding::Mapped(rev, map) => {
                if continues(commit, edits, *rev, map)? {
                    *rev = Some(commit.rev);
                    return Ok(());
                }
            }
            Holding::Waiting => return Ok(()),
        }
        *self = Holding::Waiting;
        Ok(())
    }
}
