//! Blocks in the order in which they come, some of them held.

ghost use Rattle.std.specs.Prelude.{◌≡◌, ◌++◌, ◌∷◌, ◌≤◌, ◌+◌, ℕ, List, [], true, false, map, length, Some, None, OnOk, OnErr, IfOk};
ghost use Rattle.std.specs.FinMap as finite;
ghost use Rattle.std.specs.List.{All, filter};
ghost use Rattle.sha2.specs.Sha256.{sha256};
ghost use Rattle.at_cid.specs.Link.{digest_of};
ghost use Rattle.at_cid.specs.Order.{key_cmp};
ghost use Rattle.at_car.specs.Entries.{AreInOrder};
ghost use Rattle.at_car.specs.Links.{has};
ghost use Rattle.at_car.specs.Logs.{is_held, told, IsTold, held, was_let_go, links_let_go};
ghost use Rattle.at_car.specs.Places.{bytes_at};
ghost use Rattle.at_car.specs.declared.entry.ScanEntry.{ScanEntry};

use crate::blocks::Blocks;
use crate::entry::{ScanEntry, settle};
use crate::links::Links;
use crate::place::{BlockPlace, bytes_at, lay};
use at_cid::{Cid, Memory, Octets, ghost_link};
use std::alloc::Global;
use std::marker::Model;

/// Room for so many entries is made at once: a commit's blocks are mostly no more.
const ROOM_ENTRIES: usize = 32;

/// So many entries and bytes of blocks are never too many.
const FEW_ENTRIES: usize = 1024;

const FEW_BYTES: usize = 65_536;

/// Blocks in the order in which they came: of each its link, and the block itself where it is held.
///
/// What is held lies in one buffer behind a byte of no block, so that no block begins at 0, which is the place of one
/// that was let go. A link that comes again is found only when the entries, or the bytes, have doubled.
#[derive(Drop)]
pub(crate) struct ScanLog {
    buffer: Octets,
    entries: Vec<ScanEntry>,
    most_entries: usize,
    most_bytes: usize,
}

impl Model for ScanLog {
    ghost use Rattle.std.specs.Prelude.{List, ℕ, Option, map};
    ghost use Rattle.std.specs.List.{All};
    ghost use Rattle.at_car.specs.Logs.{told, IsTold};

    ghost Value = { List (List ℕ × Option (List ℕ)) };

    ghost view = { λ a. map (told a.buffer) a.entries.items };

    ghost invariant = { λ a. All (IsTold a.buffer) a.entries.items };
}

/// Adds a block at the end of a buffer, but not at its front.
fn lay_behind(buffer: &mut Octets, block: &[u8]) -> Result<BlockPlace, Memory>
    ensures is { IfOk result (λ place. bytes_at buffer.new place ≡ block.now) }
    ensures within { IfOk result (λ place. place.start + place.len ≤ length buffer.new) }
    ensures behind { IfOk result (λ place. 1 ≤ place.start) }
    ensures longer { (more : List ℕ) × (buffer.new ≡ buffer.old ++ more) }
{
    if buffer.is_empty() {
        buffer.push(0)?;
    }
    lay(buffer, block)
}

/// The links of the entries whose blocks aren't held.
fn let_go_links(alloc: Global, entries: &[ScanEntry]) -> Result<Vec<Cid>, Memory>
    ensures { IfOk result (λ links. links.items ≡ links_let_go entries.now) }
{
    let mut links = Vec::new(alloc);
    let mut rest = entries;
    'entries: loop {
        let [entry, others @ ..] = rest else {
            return Ok(links);
        };
        if entry.place.start == 0 {
            links.push(entry.link)?;
        }
        rest = others;
    }
}

/// Leaves the entries whose blocks are held.
fn keep_held(entries: &mut Vec<ScanEntry>)
    ensures { entries.new.items ≡ filter is_held entries.old.items }
{
    entries.retain(
        |entry: &ScanEntry| -> bool
            ensures { result ≡ is_held entry.now }
        { entry.place.start != 0 },
    );
}

/// Puts what an entry tells into a log.
fn put_again(log: &mut ScanLog, buffer: &[u8], entry: &ScanEntry) -> Result<(), Memory>
    requires { IsTold buffer.now entry.now }
    ensures { OnOk result (log.new ≡ log.old ++ told buffer.now entry.now ∷ []) }
{
    if entry.place.start == 0 {
        log.let_go(entry.link)
    } else {
        log.keep(entry.link, bytes_at(buffer, &entry.place))
    }
}

/// A log of the same entries, whose buffer has their blocks alone.
fn packed(alloc: Global, buffer: &[u8], entries: &[ScanEntry]) -> Result<ScanLog, Memory>
    requires { All (IsTold buffer.now) entries.now }
    ensures { IfOk result (λ log. log ≡ map (told buffer.now) entries.now) }
{
    let mut log = ScanLog::new(alloc);
    let mut rest = entries;
    'entries: loop {
        let [entry, others @ ..] = rest else {
            return Ok(log);
        };
        put_again(&mut log, buffer, entry)?;
        rest = others;
    }
}

/// At which size something that has this size now is too large: twice that, and some more.
fn doubled(now: usize, few: usize) -> usize {
    now.saturating_mul(2).saturating_add(few)
}

impl ScanLog {
    /// Of no blocks.
    pub(crate) fn new(alloc: Global) -> ScanLog
        ensures { result ≡ [] }
    {
        ScanLog {
            buffer: Octets::new(alloc),
            entries: Vec::new(alloc),
            most_entries: FEW_ENTRIES,
            most_bytes: FEW_BYTES,
        }
    }

    /// Of no blocks, and room for so many bytes of them.
    pub(crate) fn with_room(alloc: Global, room: usize) -> Result<ScanLog, Memory>
        ensures { IfOk result (λ log. log ≡ []) }
    {
        let buffer = Vec::with_capacity(alloc, room)?;
        let entries = Vec::with_capacity(alloc, ROOM_ENTRIES)?;
        Ok(ScanLog {
            buffer: Octets::from_vec(buffer),
            entries,
            most_entries: FEW_ENTRIES,
            most_bytes: FEW_BYTES,
        })
    }

    /// A block comes, and is held.
    #[inline(always)]
    pub(crate) fn keep(&mut self, link: Cid, block: &[u8]) -> Result<(), Memory>
        requires { digest_of link ≡ sha256 block.now }
        ensures ok { OnOk result (self.new ≡ self.old ++ (link, Some block.now) ∷ []) }
        ensures err { OnErr result (self.new ≡ self.old) }
    {
        ghost_link(&link);
        let place = lay_behind(&mut self.buffer, block)?;
        self.entries.push(ScanEntry { link, place })?;
        Ok(())
    }

    /// A block comes, and only its link is held.
    pub(crate) fn let_go(&mut self, link: Cid) -> Result<(), Memory>
        ensures ok { OnOk result (self.new ≡ self.old ++ (link, None) ∷ []) }
        ensures err { OnErr result (self.new ≡ self.old) }
    {
        let place = BlockPlace { start: 0, len: 0 };
        self.entries.push(ScanEntry { link, place })?;
        Ok(())
    }

    /// Puts the entries in order, each link once.
    fn order(&mut self, alloc: Global) -> Result<(), Memory>
        ensures { (link : List ℕ)
            → finite.find key_cmp link self.new ≡ finite.find key_cmp link self.old }
    {
        settle(alloc, &mut self.entries)?;
        self.most_entries = doubled(self.entries.len(), FEW_ENTRIES);
        Ok(())
    }

    /// Lets go the bytes of no entry.
    fn pack(&mut self, alloc: Global) -> Result<(), Memory>
        ensures { self.new ≡ self.old }
    {
        let log = packed(alloc, self.buffer.as_slice(), self.entries.as_slice())?;
        *self = log;
        Ok(())
    }

    /// From now on twice as much is too much.
    fn allow_twice(&mut self)
        ensures { self.new ≡ self.old }
    {
        self.most_entries = doubled(self.entries.len(), FEW_ENTRIES);
        self.most_bytes = doubled(self.buffer.len(), FEW_BYTES);
    }

    /// Lets go what came under a link that was there, if it may be half of all that is held.
    pub(crate) fn tidy(&mut self, alloc: Global) -> Result<(), Memory>
        ensures { (link : List ℕ)
            → finite.find key_cmp link self.new ≡ finite.find key_cmp link self.old }
    {
        let is_full = self.most_bytes <= self.buffer.len();
        let all = self.entries.len();
        if all < self.most_entries && !is_full {
            return Ok(());
        }
        self.order(alloc)?;
        if !is_full {
            return Ok(());
        }
        if self.entries.len() < all {
            self.pack(alloc)?;
        }
        self.allow_twice();
        Ok(())
    }

    /// The blocks that are held, and the links of the others. The first block under a link counts.
    pub(crate) fn split(self, alloc: Global) -> Result<(Blocks, Links), Memory>
        ensures held { IfOk result
            (λ x. (link : List ℕ) → finite.get x.0 link ≡ held (finite.find key_cmp link self)) }
        ensures let_go { IfOk result
            (λ x. (link : List ℕ) → has x.1 link ≡ was_let_go (finite.find key_cmp link self)) }
    {
        let ScanLog {
            buffer,
            mut entries,
            most_entries: _,
            most_bytes: _,
        } = self;
        settle(alloc, &mut entries)?;
        let links = let_go_links(alloc, entries.as_slice())?;
        keep_held(&mut entries);
        Ok((Blocks::of(buffer, entries), Links::of(links)))
    }
}
