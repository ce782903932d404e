//! The laws of faults: a fault is read exactly where its definition gives it. Each is the contract of a function without a body.
#![tactic(auto)]

mod laws;

pub use laws::{
    car_faults_are_exact, car_has_one_answer, cbor_faults_are_exact, cbor_has_one_answer,
};
