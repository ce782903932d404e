//! What the table of hosts is asked and told.

ghost use Rattle.std.specs.Prelude.{◌≡◌, ◌≢◌, List, ℕ, [], true, length, ◌==◌, slice_get, option_map, is_some, ◌<◌, IfSome, OnOk};
ghost use Rattle.std.specs.Str.{bytes_eq};
ghost use Rattle.std.specs.String.{string_bytes};
ghost use Rattle.indexmap.specs.IndexMap.{index_map_len, index_of_by, get_by_text};
ghost use Rattle.relay_row.specs.Folds.{host_in};
ghost use Rattle.host_state.specs.Folds.{set_cursor, hosts_after, cursor_of};
ghost use Rattle.host_state.specs.Table.{listed, has_room};

use crate::hosts::Hosts;
use at_cid::Memory;
use indexmap::IndexMap;
use relay_row::Row;
use std::alloc::Global;

impl Hosts {
    /// The hosts of the empty journal.
    pub fn new(alloc: Global) -> Hosts
        ensures { listed result ≡ [] }
    {
        Hosts {
            alloc,
            map: IndexMap::new(alloc),
            recent: 0,
            ready: IndexMap::new(alloc),
        }
    }

    /// How many hosts rows name.
    pub fn len(&self) -> usize
        ensures { result ≡ length (listed self.now) }
    {
        self.map.len()
    }

    /// Whether rows name none.
    pub fn is_empty(&self) -> bool
        ensures { result ≡ (length (listed self.now) == 0) }
    {
        self.map.is_empty()
    }

    /// The host at a place in first-seen order, counted from 0, and its cursor.
    pub fn at(&self, place: usize) -> Option<(&str, u64)>
        ensures { option_map (λ x. (x.0.now, x.1)) result ≡ slice_get (listed self.now) place }
    {
        match self.map.get_index(place) {
            Some((name, cursor)) => Some((name.as_str(), *cursor)),
            None => None,
        }
    }

    // The place of a host that a row names. That of the one that was set last is looked at first.
    fn place(&self, host: &str) -> Option<usize>
        ensures place { result
            ≡ index_of_by (λ name. bytes_eq host.now (string_bytes name)) self.now.map }
        ensures found { is_some result ≡ is_some (get_by_text self.now.map host.now) }
        ensures within { IfSome result (λ place. place < index_map_len self.now.map) }
    {
        match self.map.as_slice().get_index(self.recent) {
            Some((name, _)) if name.as_str() == host => Some(self.recent),
            _ => self.map.get_index_of(host),
        }
    }

    /// The cursor of a host, or 0 where no row names it.
    pub fn cursor(&self, host: &str) -> u64
        ensures { result ≡ cursor_of (listed self.now) host.now }
    {
        match self.place(host) {
            Some(place) => self.map[place],
            None => 0,
        }
    }

    /// Makes room for a host. What is known stays.
    pub fn touch(&mut self, host: &str) -> Result<(), Memory>
        ensures listed { listed self.new ≡ listed self.old }
        ensures room { OnOk result (has_room self.new host.now ≡ true) }
        ensures kept { (name : List ℕ) → has_room self.old name ≡ true
            → has_room self.new name ≡ true }
    {
        if self.place(host).is_some() || self.ready.contains_key(host) {
            return Ok(());
        }
        let name = String::from_str(self.alloc, host)?;
        self.map.reserve(self.ready.len() + 1)?;
        self.ready.insert(name, ())?;
        Ok(())
    }

    // Sets the cursor of a host that has room.
    fn set(&mut self, host: &str, cursor: u64)
        requires { has_room self.old host.now ≡ true }
        ensures listed { listed self.new ≡ set_cursor (listed self.old) host.now cursor }
        ensures room { (name : List ℕ) → has_room self.new name ≡ has_room self.old name }
    {
        if let Some(place) = self.place(host) {
            self.map[place] = cursor;
            self.recent = place;
            return;
        }
        self.recent = self.map.len();
        if let Some((name, _)) = self.ready.swap_remove_entry(host) {
            let Ok(_) = self.map.insert(name, cursor) else {
                unreachable!()
            };
        }
    }

    /// The hosts after one more row, whose host was touched, where it names one. Takes no memory.
    pub fn apply(&mut self, row: &Row)
        requires { host_in row.now ≢ [] → has_room self.old (host_in row.now) ≡ true }
        ensures listed { listed self.new ≡ hosts_after (listed self.old) row.now }
        ensures room { (name : List ℕ) → has_room self.new name ≡ has_room self.old name }
    {
        let host = row.host();
        if !host.is_empty() {
            self.set(host, row.host_seq());
        }
    }
}
