//! Copies of rows.

ghost use Rattle.std.specs.Prelude.{◌≡◌, IfOk};

use crate::carried::{Carried, CarriedAccount, CarriedRepo};
use crate::fetched::{Fetched, Whole};
use crate::operated::Operated;
use crate::row::Row;
use crate::taken::{Effect, Taken};
use at_cid::{Memory, Words};

fn copy_status(status: &Option<Words>) -> Result<Option<Words>, Memory>
    ensures { IfOk result (λ made. made ≡ status.now) }
{
    match status {
        Some(status) => Ok(Some(status.try_clone()?)),
        None => Ok(None),
    }
}

fn copy_whole(whole: &Whole) -> Result<Whole, Memory>
    ensures { IfOk result (λ made. made ≡ whole.now) }
{
    Ok(Whole {
        seq: whole.seq,
        head: whole.head,
        records: whole.records,
        message: whole.message.try_clone()?,
    })
}

fn copy_effect(effect: &Effect) -> Result<Effect, Memory>
    ensures { IfOk result (λ made. made ≡ effect.now) }
{
    match effect {
        Effect::Nothing => Ok(Effect::Nothing),
        Effect::Repo(head) => Ok(Effect::Repo(*head)),
        Effect::Account(active, status) => Ok(Effect::Account(*active, copy_status(status)?)),
    }
}

fn copy_fetched(fetched: &Fetched) -> Result<Fetched, Memory>
    ensures { IfOk result (λ made. made ≡ fetched.now) }
{
    match fetched {
        Fetched::NotAsked => Ok(Fetched::NotAsked),
        Fetched::Absent => Ok(Fetched::Absent),
        Fetched::Refused(number) => Ok(Fetched::Refused(*number)),
        Fetched::Whole(whole) => Ok(Fetched::Whole(copy_whole(whole)?)),
    }
}

fn copy_taken(taken: &Taken) -> Result<Taken, Memory>
    ensures { IfOk result (λ made. made ≡ taken.now) }
{
    Ok(Taken {
        host: taken.host.try_clone()?,
        host_seq: taken.host_seq,
        did: taken.did.try_clone()?,
        kind: taken.kind,
        refusal: taken.refusal,
        seq: taken.seq,
        message: taken.message.try_clone()?,
        effect: copy_effect(&taken.effect)?,
        fetched: copy_fetched(&taken.fetched)?,
        moment: taken.moment,
    })
}

fn copy_operated(operated: &Operated) -> Result<Operated, Memory>
    ensures { IfOk result (λ made. made ≡ operated.now) }
{
    Ok(Operated {
        did: operated.did.try_clone()?,
        down: operated.down,
        seq: operated.seq,
        message: operated.message.try_clone()?,
        moment: operated.moment,
    })
}

fn copy_repo(repo: &CarriedRepo) -> CarriedRepo
    ensures { result ≡ repo.now }
{
    match repo {
        CarriedRepo::Missing => CarriedRepo::Missing,
        CarriedRepo::Good(head) => CarriedRepo::Good(*head),
        CarriedRepo::Lost(rev) => CarriedRepo::Lost(*rev),
    }
}

fn copy_account(account: &CarriedAccount) -> Result<CarriedAccount, Memory>
    ensures { IfOk result (λ made. made ≡ account.now) }
{
    Ok(CarriedAccount {
        did: account.did.try_clone()?,
        active: account.active,
        status: copy_status(&account.status)?,
        down: account.down,
        repo: copy_repo(&account.repo),
    })
}

fn copy_carried(carried: &Carried) -> Result<Carried, Memory>
    ensures { IfOk result (λ made. made ≡ carried.now) }
{
    match carried {
        Carried::Last(seq) => Ok(Carried::Last(*seq)),
        Carried::Host(host, cursor) => Ok(Carried::Host(host.try_clone()?, *cursor)),
        Carried::Account(account) => Ok(Carried::Account(copy_account(account)?)),
    }
}

impl Row {
    /// An equal row, with its own memory.
    pub fn try_clone(&self) -> Result<Row, Memory>
        ensures { IfOk result (λ made. made ≡ self.now) }
    {
        match self {
            Row::Taken(taken) => Ok(Row::Taken(copy_taken(taken)?)),
            Row::Synced(did, whole, moment) => {
                Ok(Row::Synced(did.try_clone()?, copy_whole(whole)?, *moment))
            }
            Row::Operated(operated) => Ok(Row::Operated(copy_operated(operated)?)),
            Row::Carried(carried) => Ok(Row::Carried(copy_carried(carried)?)),
        }
    }
}
