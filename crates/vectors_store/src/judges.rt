//! Authorities as a row words them: `METHOD : TABLE : TABLE : FAILING` with ` ; ` between two, the second table being that of
//! refreshed accounts, or `same`; a table has its lines with `/` between two.

use at_authority::{Panel, Table, TableAuthority};
use vector_lines::Case;

/// The authority of a row's next parts, behind its method.
pub fn authority_of(case: &mut Case<'_>) -> Option<TableAuthority> {
    let present = case.part(" : ");
    let later = case.part(" : ");
    let later = if later == "same" { present } else { later };
    let failing = case.numbers(" : ");
    let present = table(case, present);
    let later = table(case, later);
    match (present, later) {
        (Some(present), Some(later)) => {
            let authority = TableAuthority::new(case.alloc, present, later, failing.as_slice());
            case.gave(authority)
        }
        (_, _) => None,
    }
}

fn table(case: &mut Case<'_>, lines: &str) -> Option<Table> {
    let mut text = String::new(case.alloc);
    if lines != "-" {
        for line in lines.split('/') {
            case.did(text.push_str(line));
            case.did(text.push('\n'));
        }
    }
    case.gave(Table::parse(case.alloc, text.as_str()))
}

/// Answers who has fallen and who is left of each method of which one has fallen.
pub fn say_fallen(case: &mut Case<'_>, panel: &Panel) {
    for method in ["plc", "web"] {
        let count = panel.fallen(method);
        if count > 0 {
            case.say(" / ");
            case.say(method);
            case.say(" fallen ");
            case.say_number(count);
            case.say(" left ");
            case.say_number(panel.left(method) as u64);
        }
    }
}
