//! `ONE ; TWO ; MOST | JUDGES | REPOSITORIES | MOMENTS | STEPS = what each step answers, and who of the judges has fallen`: a store
//! that is opened on two disks, of which no row is to end past MOST, and the steps that are made on it.

use crate::disks::{FileInMemory, fill, two_disks};
use crate::judges::{authority_of, say_fallen};
use crate::setup::{clock_of, repos_of};
use crate::steps::{Sitting, make};
use at_authority::Panel;
use gate_log::{LAST_END, Side};
use relay_store::Store;
use std::mem;
use vector_lines::Case;

/// Answers a row of a store.
pub fn session(rt: &HostRuntime, case: &mut Case<'_>) {
    if let Some((mut one, mut two)) = two_disks(rt, case) {
        fill(case, &mut one, " ; ");
        fill(case, &mut two, " ; ");
        opened(case, &mut one, &mut two);
    }
}

fn opened<'a>(case: &mut Case<'a>, one: &mut FileInMemory, two: &mut FileInMemory) {
    let most = case.number(" | ").min(LAST_END);
    let mut panel = Panel::new(case.alloc);
    let judges = case.part(" | ");
    if judges != "-" {
        for judge in judges.split(" ; ") {
            let rest = case.turn(judge);
            let method = case.part(" : ");
            if let Some(authority) = authority_of(case) {
                match Box::new(case.alloc, authority) {
                    Ok(authority) => {
                        case.did(panel.add(method, authority));
                    }
                    Err(_) => case.say("Memory"),
                }
            }
            case.back(rest);
        }
    }
    let repos = repos_of(case);
    let clock = clock_of(case);
    let steps = case.part(" | ");
    if let (Some(repos), Some(clock)) = (repos, clock) {
        match Store::open(case.alloc, one, two, most) {
            Ok(store) => {
                let side = store.side();
                let mut sitting = Sitting {
                    store,
                    repos,
                    clock,
                    panel,
                    is_behind: false,
                    messages: 0,
                    events: 0,
                    refused: 0,
                };
                match side {
                    Side::One => sat(case, &mut sitting, one, steps),
                    Side::Two => sat(case, &mut sitting, two, steps),
                }
                mem::drop(sitting);
            }
            Err(fault) => {
                case.say_number(u64::from(fault.number()));
                case.say(" ");
                case.say_named(&fault);
            }
        }
    }
}

// Makes the steps, with ` ; ` between two, or none for `-`.
fn sat<'a>(case: &mut Case<'a>, sitting: &mut Sitting, disk: &mut FileInMemory, steps: &'a str) {
    if steps != "-" {
        for step in steps.split(" ; ") {
            let rest = case.turn(step);
            make(case, sitting, disk);
            case.back(rest);
        }
    }
    say_fallen(case, &sitting.panel);
}
