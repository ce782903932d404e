//! One account.

ghost use Rattle.std.specs.Prelude.{◌≡◌, Some, None, true, option_map, if◌then◌else◌};
ghost use Rattle.std.specs.Option.{unwrap_or};
ghost use Rattle.relay_row.specs.Folds.{host_in, host_seq_in};
ghost use Rattle.account_state.specs.declared.repo.Repo.{Repo};
ghost use Rattle.account_state.specs.Folds.{fresh, effected, last_rev, lost, refetched, taken_by, repo_carried, carried_as, moved};
ghost use Rattle.account_state.specs.State.{state_of, known};

use crate::links::Links;
use crate::repo::Repo;
use at_cid::Words;
use at_event::{Head, Refusal};
use at_syntax::Tid;
use relay_row::{Carried, CarriedAccount, CarriedRepo, Effect, Fetched, Row, Taken, loses};
use std::alloc::Global;

/// An account, as the rows of a journal leave it.
///
/// A relay keeps one for each DID that it has heard of, so its parts lie close together.
#[derive(Debug, Drop)]
pub struct Account {
    status: Words,
    rev: Tid,
    links: Links,
    has_status: bool,
    active: bool,
    down: bool,
    named: bool,
}

impl Account {
    /// Room for an account that no row names.
    pub(crate) fn unnamed(alloc: Global) -> Account
        ensures { known result ≡ None }
    {
        Account {
            status: Words::new(alloc),
            rev: Tid::from_value(0),
            links: Links::Missing,
            has_status: false,
            active: true,
            down: false,
            named: false,
        }
    }

    /// Whether a row names it.
    pub(crate) fn is_named(&self) -> bool
        ensures { result ≡ self.now.named }
    {
        self.named
    }

    /// Whether its host serves the repository.
    pub fn is_active(&self) -> bool
        ensures { result ≡ (state_of self.now).active }
    {
        self.active
    }

    /// What its host last said of it, where it said something.
    pub fn status(&self) -> Option<&str>
        ensures { option_map (λ text. text.now) result ≡ (state_of self.now).status }
    {
        if self.has_status {
            Some(self.status.as_str())
        } else {
            None
        }
    }

    /// Whether the operator took it down.
    pub fn is_down(&self) -> bool
        ensures { result ≡ (state_of self.now).down }
    {
        self.down
    }

    /// Its repository.
    pub fn repo(&self) -> Repo
        ensures { result ≡ (state_of self.now).repo }
    {
        match self.links {
            Links::Missing => Repo::Missing,
            Links::Good(data_root, commit) => Repo::Good(Head {
                rev: self.rev,
                data_root,
                commit,
            }),
            Links::Lost => Repo::Lost(Some(self.rev)),
            Links::LostAtStart => Repo::Lost(None),
        }
    }

    // A row names it. Until then it was as an account that none names.
    fn name(&mut self)
        ensures state { state_of self.new ≡ (if self.old.named then state_of self.old else fresh) }
        ensures named { self.new.named ≡ true }
    {
        if !self.named {
            self.active = true;
            self.has_status = false;
            self.down = false;
            self.links = Links::Missing;
            self.named = true;
        }
    }

    fn set_head(&mut self, head: Head)
        ensures state { state_of self.new ≡ record (state_of self.old) { repo = Repo.Good head } }
        ensures named { self.new.named ≡ self.old.named }
    {
        self.rev = head.rev;
        self.links = Links::Good(head.data_root, head.commit);
    }

    fn set_status(&mut self, active: bool, status: Option<Words>)
        ensures state { state_of self.new
            ≡ record (state_of self.old) { active = active; status = status } }
        ensures named { self.new.named ≡ self.old.named }
    {
        self.active = active;
        match status {
            Some(text) => {
                self.status = text;
                self.has_status = true;
            }
            None => self.has_status = false,
        }
    }

    // Commits were lost behind the last revision.
    fn lose(&mut self)
        ensures state { state_of self.new
            ≡ record (state_of self.old) { repo = Repo.Lost (last_rev (state_of self.old).repo) } }
        ensures named { self.new.named ≡ self.old.named }
    {
        self.links = match self.links {
            Links::Missing | Links::LostAtStart => Links::LostAtStart,
            Links::Good(_, _) | Links::Lost => Links::Lost,
        };
    }

    fn take_effect(&mut self, effect: &mut Effect)
        ensures state { state_of self.new ≡ effected (state_of self.old) effect.old }
        ensures named { self.new.named ≡ self.old.named }
    {
        match effect {
            Effect::Nothing => {}
            Effect::Repo(head) => self.set_head(*head),
            Effect::Account(active, status) => self.set_status(*active, status.take()),
        }
    }

    fn take_refusal(&mut self, refusal: &Option<Refusal>)
        ensures state { state_of self.new ≡ lost (state_of self.old) refusal.now }
        ensures named { self.new.named ≡ self.old.named }
    {
        if let Some(refusal) = refusal {
            if loses(refusal) {
                self.lose();
            }
        }
    }

    fn take_fetched(&mut self, fetched: &Fetched)
        ensures state { state_of self.new ≡ refetched (state_of self.old) fetched.now }
        ensures named { self.new.named ≡ self.old.named }
    {
        match fetched {
            Fetched::Whole(whole) => self.set_head(whole.head),
            Fetched::NotAsked | Fetched::Absent | Fetched::Refused(_) => {}
        }
    }

    fn take_message(&mut self, taken: &mut Taken)
        ensures state { state_of self.new ≡ taken_by (state_of self.old) taken.old }
        ensures named { self.new.named ≡ self.old.named }
        ensures host { taken.new.host ≡ taken.old.host }
        ensures host_seq { taken.new.host_seq ≡ taken.old.host_seq }
    {
        self.take_effect(&mut taken.effect);
        self.take_refusal(&taken.refusal);
        self.take_fetched(&taken.fetched);
    }

    fn carry_repo(&mut self, repo: &CarriedRepo)
        ensures state { state_of self.new
            ≡ record (state_of self.old) { repo = repo_carried repo.now } }
        ensures named { self.new.named ≡ self.old.named }
    {
        match repo {
            CarriedRepo::Missing => self.links = Links::Missing,
            CarriedRepo::Good(head) => self.set_head(*head),
            CarriedRepo::Lost(None) => self.links = Links::LostAtStart,
            CarriedRepo::Lost(Some(rev)) => {
                self.rev = *rev;
                self.links = Links::Lost;
            }
        }
    }

    fn carry(&mut self, carried: &mut CarriedAccount)
        ensures state { state_of self.new ≡ carried_as carried.old }
        ensures named { self.new.named ≡ self.old.named }
    {
        self.set_status(carried.active, carried.status.take());
        self.down = carried.down;
        self.carry_repo(&carried.repo);
    }

    /// A row names it and moves it. What the host said of it is taken out of the row, so this takes no memory.
    pub(crate) fn follow(&mut self, row: &mut Row)
        ensures state { known self.new ≡ Some (moved (unwrap_or (known self.old) fresh) row.old) }
        ensures host { host_in row.new ≡ host_in row.old }
        ensures host_seq { host_seq_in row.new ≡ host_seq_in row.old }
    {
        self.name();
        match row {
            Row::Taken(taken) => self.take_message(taken),
            Row::Synced(_, whole, _) => self.set_head(whole.head),
            Row::Operated(operated) => self.down = operated.down,
            Row::Carried(Carried::Account(carried)) => self.carry(carried),
            Row::Carried(Carried::Last(_)) | Row::Carried(Carried::Host(_, _)) => {}
        }
    }
}
