//! Taking rows into what is known.

ghost use Rattle.std.specs.Prelude.{◌≡◌, ◌<◌, ◌++◌, ◌∷◌, [], List, ◌==◌, if◌then◌else◌, OnOk, OnErr};
ghost use Rattle.relay_row.specs.declared.row.Row.{Row as TheRow};
ghost use Rattle.relay_core.specs.Entries.{Holds};
ghost use Rattle.relay_store.specs.Places.{number_in, place_of};

use at_cid::Memory;
use event_window::{Place, Window};
use relay_core::Core;
use relay_row::Row;

// The number of the event that a row sends out, or 0.
fn number_in(row: &Row) -> u64
    ensures { result ≡ number_in row.now }
{
    match row {
        Row::Taken(taken) => taken.given(),
        Row::Synced(_, whole, _) => whole.seq,
        Row::Operated(operated) => operated.seq,
        Row::Carried(_) => 0,
    }
}

// Notes where a row stands, if it sends out an event.
fn note(window: &mut Window, place: Place)
    requires { 0 < window.old.spare }
    ensures { window.new.places
        ≡ window.old.places ++ (if place.seq == 0 then [] else place ∷ []) }
{
    if place.seq != 0 {
        window.push(place);
    }
}

/// Takes one more row, which stands at this index of the body at this place. What is kept is taken out of the row. Where memory
/// runs out, what is known stays as it was.
pub fn learn_row(
    core: &mut Core,
    window: &mut Window,
    place: u64,
    index: u8,
    row: &mut Row,
) -> Result<(), Memory>
    ensures core { OnOk result ((J : List TheRow) → Holds core.old J
        → Holds core.new (J ++ row.old ∷ [])) }
    ensures window { OnOk result (window.new.places
        ≡ window.old.places ++ place_of place index row.old) }
    ensures core_kept { OnErr result ((J : List TheRow) → Holds core.old J → Holds core.new J) }
    ensures window_kept { OnErr result (window.new.places ≡ window.old.places) }
{
    window.reserve(1)?;
    let seq = number_in(row);
    core.learn(row)?;
    note(window, Place { seq, place, index });
    Ok(())
}
