//! The law of JSON texts.

ghost use Rattle.json_text.specs.Laws.{TextsAreWritten};

/// What `serde_json` writes for a value without floats is its text by RFC 8259: strings between
/// quotes with the escapes that are asked for, arrays in brackets, objects in braces, commas
/// between items and members, and no blanks.
pub fn texts_are_written()
    ensures { TextsAreWritten }
{}
