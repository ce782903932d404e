//! How a row moves the relay's state.

ghost use Rattle.std.specs.Prelude.{◌≡◌};
ghost use Rattle.relay_row.specs.Folds.{last_after};
ghost use Rattle.relay_core.specs.Stages.{next_stage};

use crate::stage::Stage;
use relay_row::{Carried, Row};

/// How far the front goes after one more row.
pub fn stage_after(stage: Stage, row: &Row) -> Stage
    ensures { result ≡ next_stage stage row.now }
{
    match (row, stage) {
        (Row::Carried(Carried::Account(_)), Stage::Start | Stage::Hosts) => Stage::Accounts,
        (Row::Carried(Carried::Last(_) | Carried::Host(_, _)), Stage::Start) => Stage::Hosts,
        (Row::Carried(_), _) => stage,
        (Row::Taken(_) | Row::Synced(_, _, _) | Row::Operated(_), _) => Stage::Events,
    }
}

/// The last number after one more row.
pub fn last_after(last: u64, row: &Row) -> u64
    ensures { result ≡ last_after last row.now }
{
    match row.seq() {
        0 => last,
        seq => seq,
    }
}
