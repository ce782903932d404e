//! The pieces of a line.

ghost use Rattle.std.specs.Prelude.{◌≡◌, ◌++◌, OnOk, decimal};
ghost use Rattle.at_cid.specs.Text.{text_of};
ghost use Rattle.relay_core.specs.Report.{detail_of, refused_of};

use at_cid::{Cid, Memory, Octets, TEXT_LEN};
use at_event::Refusal;
use itoa::Buffer;

/// Adds a number in decimal. After an error nothing is said of the line.
pub fn add_number(line: &mut Octets, number: u64) -> Result<(), Memory>
    ensures { OnOk result (line.new ≡ line.old ++ decimal number) }
{
    line.extend(Buffer::new().format(number).as_bytes())
}

/// Adds a link as its text. After an error nothing is said of the line.
pub fn add_link(line: &mut Octets, link: &Cid) -> Result<(), Memory>
    ensures { OnOk result (line.new ≡ line.old ++ text_of link.now) }
{
    let mut text = [0; TEXT_LEN];
    link.write_text(&mut text);
    line.extend(&text)
}

/// Adds a refusal: its number, its name and its detail. After an error nothing is said of the line.
pub fn add_refusal(line: &mut Octets, refusal: &Refusal) -> Result<(), Memory>
    ensures { OnOk result (line.new ≡ line.old ++ refused_of refusal.now) }
{
    line.extend(b"refused ")?;
    add_number(line, u64::from(refusal.code()))?;
    line.extend(b" ")?;
    line.extend(refusal.name().as_bytes())?;
    add_detail(line, refusal)
}

// What is said of a refusal behind its name.
fn add_detail(line: &mut Octets, refusal: &Refusal) -> Result<(), Memory>
    ensures { OnOk result (line.new ≡ line.old ++ detail_of refusal.now) }
{
    match refusal {
        Refusal::BadNode(link) => {
            line.extend(b" at ")?;
            add_link(line, link)?;
        }
        Refusal::OtherOp(op) | Refusal::NotCovered(op) => {
            line.extend(b" op ")?;
            add_number(line, u64::from(*op))?;
        }
        Refusal::OtherData(want, got) => {
            line.extend(b" want ")?;
            add_link(line, want)?;
            line.extend(b" got ")?;
            add_link(line, got)?;
        }
        Refusal::RepositoryRefused(number) => {
            line.extend(b" ")?;
            add_number(line, u64::from(*number))?;
        }
        _ => {}
    }
    Ok(())
}
