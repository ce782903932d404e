//! Who tells the homes of accounts and whether signatures are good: authorities, which are boxed objects that a caller hands
//! in, and judges, which ask them. A panel keeps a list of authorities for each DID method and asks the first that lives.
#![tactic(auto)]

mod asked;
mod authorities;
mod authority;
mod judges;
mod laws;
mod line;
mod panel;
mod question;
mod table;
mod table_authority;
mod table_fault;
mod trust_all;

pub use asked::Asked;
pub use authority::Authority;
pub use judges::{JudgeFault, Judges};
pub use laws::{
    answers_have_ranks, calls_fell, calls_join, calls_part, home_lines_name_homes, one_line_is_bad,
    other_lines_name_none, tables_are_good, text_tells_lines,
};
pub use panel::Panel;
pub use table::Table;
pub use table_authority::TableAuthority;
pub use table_fault::TableFault;
pub use trust_all::TrustAll;
