//! A journal written anew into a log that is being built, each row as a body of its own.

ghost use Rattle.std.specs.Prelude.{◌≡◌, ◌≢◌, ◌≤◌, ◌<◌, ◌∷◌, [], ℕ, length, IsTrue, OnOk, OnErr};
ghost use Rattle.at_cid.specs.Counts.{Rose};
ghost use Rattle.relay_disk.specs.Moments.{LeavesOnly};
ghost use Rattle.gate_log.specs.Build.{IsBuiltOn, IsClosed};
ghost use Rattle.gate_log.specs.declared.limits.TheConstants.{BODY_LENGTHS};
ghost use Rattle.row_codec.specs.Bodies.{rows_body};
ghost use Rattle.store_cut.specs.Rereading.{BreaksOrder, GrowsInOrder};
ghost use Rattle.store_cut.specs.Rewriting.{AllShort, IsShort, IsCopied, RewriteHasNoRoom, IsOfAdding, IsOfRewriting};
ghost use Rattle.relay_store.specs.declared.fault.StoreFault.{StoreFault as TheFault};

use at_cbor::write_list_front;
use at_cid::{Memory, Octets};
use event_window::Window;
use gate_log::Build;
use relay_core::Core;
use relay_disk::Disk;
use relay_row::Row;
use relay_store::{StoreFault, learn_row};
use row_codec::write_row;
use std::collections::VecDeque;

/// A journal that is being written anew: the log, which is built behind a closed gate, and what is known of its rows.
#[derive(Drop)]
pub(crate) struct Rewrite {
    pub(crate) build: Build,
    pub(crate) core: Core,
    pub(crate) window: Window,
    pub(crate) body: Octets,
}

// Puts the body of one row together.
#[tactic(auto, unfolding(row_codec::specs::Bodies::rows_body))]
fn encode_body(body: &mut Octets, row: &Row) -> Result<(), Memory>
    requires short { IsShort row.now }
    ensures body { OnOk result (body.new ≡ rows_body (row.now ∷ [])) }
    ensures short { OnOk result (length body.new < BODY_LENGTHS) }
{
    body.clear();
    write_list_front(body, 1)?;
    write_row(body, row)
}

/// Adds a row as a body of its own.
pub(crate) fn put_row<D: Disk>(
    rewrite: &mut Rewrite,
    other: &mut D,
    mut row: Row,
) -> Result<(), StoreFault>
    requires on { IsTrue D.tells → IsBuiltOn (D.view other.old) rewrite.old.build }
    requires short { IsShort row }
    ensures copied { OnOk result (IsCopied D.tells
        (row ∷ []) rewrite.old rewrite.new (D.view other.old) (D.view other.new)) }
    ensures run { IsTrue D.tells → LeavesOnly IsClosed (D.view other.old) (D.view other.new) }
    ensures disk { result ≡ Err StoreFault.Disk
        → Rose (D.view other.old).faults (D.view other.new).faults }
    ensures no_fault { OnErr result (result ≢ Err StoreFault.Disk
        → (D.view other.new).faults ≡ (D.view other.old).faults) }
    ensures counts { (D.view other.old).faults ≤ (D.view other.new).faults }
    ensures full { (e : ℕ) → result ≡ Err (StoreFault.Full e)
        → RewriteHasNoRoom rewrite.old.build.end rewrite.old.build.most (row ∷ []) e }
    ensures few { (f : TheFault) → result ≡ Err f → IsOfAdding f }
{
    encode_body(&mut rewrite.body, &row)?;
    let place = match rewrite.build.add(other, rewrite.body.as_slice()) {
        Ok(place) => place,
        Err(fault) => return Err(StoreFault::from(fault)),
    };
    let learned = learn_row(&mut rewrite.core, &mut rewrite.window, place, 0, &mut row);
    drop(row);
    learned?;
    Ok(())
}

/// Adds rows that were read of the body at a place, each as a body of its own, as long as they keep the order.
pub(crate) fn put_rows<D: Disk>(
    rewrite: &mut Rewrite,
    other: &mut D,
    place: u64,
    rows: Vec<Row>,
) -> Result<(), StoreFault>
    requires on { IsTrue D.tells → IsBuiltOn (D.view other.old) rewrite.old.build }
    requires short { AllShort rows.items }
    ensures ordered { OnOk result (GrowsInOrder rows.items rewrite.old.core) }
    ensures bad_log { (p : ℕ) → result ≡ Err (StoreFault.BadLog p)
        → BreaksOrder rows.items rewrite.old.core }
    ensures copied { OnOk result (IsCopied D.tells rows.items rewrite.old rewrite.new
        (D.view other.old) (D.view other.new)) }
    ensures run { IsTrue D.tells → LeavesOnly IsClosed (D.view other.old) (D.view other.new) }
    ensures disk { result ≡ Err StoreFault.Disk
        → Rose (D.view other.old).faults (D.view other.new).faults }
    ensures no_fault { OnErr result (result ≢ Err StoreFault.Disk
        → (D.view other.new).faults ≡ (D.view other.old).faults) }
    ensures counts { (D.view other.old).faults ≤ (D.view other.new).faults }
    ensures full { (e : ℕ) → result ≡ Err (StoreFault.Full e)
        → RewriteHasNoRoom rewrite.old.build.end rewrite.old.build.most rows.items e }
    ensures few { (f : TheFault) → result ≡ Err f → IsOfRewriting f }
{
    let mut left = VecDeque::from_vec(rows);
    'rows: while let Some(row) = left.pop_front() {
        if !rewrite.core.is_next(&row) {
            return Err(StoreFault::BadLog(place));
        }
        put_row(rewrite, other, row)?;
    }
    Ok(())
}
