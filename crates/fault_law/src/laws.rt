//! The laws, of DAG-CBOR first.

ghost use Rattle.fault_law.specs.Laws.{CarFaultsAreExact, CarHasOneAnswer, CborFaultsAreExact, CborHasOneAnswer};

/// Bytes are read as a fault exactly where all in front of its place keeps the rules and what stands there breaks this one.
pub fn cbor_faults_are_exact()
    ensures { CborFaultsAreExact }
{}

/// Bytes have an item in front or a fault, not both, and no two faults.
pub fn cbor_has_one_answer()
    ensures { CborHasOneAnswer }
{}

/// Bytes are read as a fault exactly where they have no header, or the first faulty section breaks this rule.
pub fn car_faults_are_exact()
    ensures { CarFaultsAreExact }
{}

/// Bytes are a CAR or have a fault, not both, and no two faults.
pub fn car_has_one_answer()
    ensures { CarHasOneAnswer }
{}
