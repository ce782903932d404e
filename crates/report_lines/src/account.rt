//! The line of an account.

ghost use Rattle.std.specs.Prelude.{◌≡◌, ◌++◌, IfOk, OnOk, option_map};
ghost use Rattle.std.specs.List.{flat_map};
ghost use Rattle.std.specs.Option.{unwrap_or};
ghost use Rattle.at_syntax.specs.Tid.{digits_of};
ghost use Rattle.account_state.specs.Folds.{fresh};
ghost use Rattle.account_state.specs.State.{state_of};
ghost use Rattle.report_lines.specs.StateLines.{account_text, active_word, down_word, good_words, link_word, repo_words, shown_byte, status_word};

use crate::pieces::add_link;
use account_state::{Account, Repo};
use at_cid::{Cid, Memory, Octets};
use at_event::Head;
use at_syntax::{TID_LEN, Tid};
use percent_encoding::percent_encode_byte;
use std::alloc::Global;

fn add_byte(line: &mut Octets, byte: u8) -> Result<(), Memory>
    ensures { OnOk result (line.new ≡ line.old ++ shown_byte byte) }
{
    if byte.is_ascii_graphic() && byte != b'%' {
        line.push(byte)
    } else {
        line.extend(percent_encode_byte(byte).as_bytes())
    }
}

fn add_bytes(line: &mut Octets, text: &[u8]) -> Result<(), Memory>
    ensures { OnOk result (line.new ≡ line.old ++ flat_map shown_byte text.now) }
{
    let mut rest = text;
    'bytes: while let [byte, others @ ..] = rest {
        add_byte(line, *byte)?;
        rest = others;
    }
    Ok(())
}

fn add_status(line: &mut Octets, status: Option<&str>) -> Result<(), Memory>
    ensures { OnOk result (line.new ≡ line.old
        ++ status_word (option_map (λ text. text.now) status.entry)) }
{
    match status {
        None => line.extend(b"-"),
        Some("") => line.extend(b"%"),
        Some(text) => add_bytes(line, text.as_bytes()),
    }
}

// A blank and a link.
fn add_link_word(line: &mut Octets, link: &Cid) -> Result<(), Memory>
    ensures { OnOk result (line.new ≡ line.old ++ link_word link.now) }
{
    line.extend(b" ")?;
    add_link(line, link)
}

fn add_rev(line: &mut Octets, rev: Tid) -> Result<(), Memory>
    ensures { OnOk result (line.new ≡ line.old ++ digits_of rev) }
{
    let mut text = [0; TID_LEN];
    rev.write(&mut text);
    line.extend(&text)
}

fn add_head(line: &mut Octets, head: &Head) -> Result<(), Memory>
    ensures { OnOk result (line.new ≡ line.old ++ good_words head.now) }
{
    line.extend(b"good ")?;
    add_rev(line, head.rev)?;
    add_link_word(line, &head.data_root)?;
    add_link_word(line, &head.commit)
}

fn add_repo(line: &mut Octets, repo: &Repo) -> Result<(), Memory>
    ensures { OnOk result (line.new ≡ line.old ++ repo_words repo.now) }
{
    match repo {
        Repo::Missing => line.extend(b"none"),
        Repo::Good(head) => add_head(line, head),
        Repo::Lost(None) => line.extend(b"lost -"),
        Repo::Lost(Some(rev)) => {
            line.extend(b"lost ")?;
            add_rev(line, *rev)
        }
    }
}

fn add_account(line: &mut Octets, account: &Account) -> Result<(), Memory>
    ensures { OnOk result (line.new ≡ line.old
        ++ (active_word (state_of account.now).active
        ++ (status_word (state_of account.now).status
        ++ (down_word (state_of account.now).down ++ repo_words (state_of account.now).repo)))) }
{
    line.extend(active_bytes(account.is_active()))?;
    add_status(line, account.status())?;
    line.extend(down_bytes(account.is_down()))?;
    add_repo(line, &account.repo())
}

fn active_bytes(active: bool) -> &'static [u8]
    ensures { result.now ≡ active_word active }
{
    if active { b" active " } else { b" inactive " }
}

fn down_bytes(down: bool) -> &'static [u8]
    ensures { result.now ≡ down_word down }
{
    if down { b" down " } else { b" up " }
}

/// The line of an account, with its line feed. One that no row names is active, up and without a repository, and nothing was said
/// of it.
pub fn account_line(alloc: Global, did: &str, account: Option<&Account>) -> Result<Octets, Memory>
    ensures { IfOk result (λ line. line
        ≡ account_text did.now (unwrap_or (option_map (λ a. state_of a.now) account.entry) fresh)) }
{
    let mut line = Octets::new(alloc);
    line.extend(did.as_bytes())?;
    match account {
        Some(account) => add_account(&mut line, account)?,
        None => line.extend(b" active - up none")?,
    }
    line.extend(b"\n")?;
    Ok(line)
}
