//! The words of a command after its first.
ghost use Rattle.std.specs.Prelude.{◌≡◌, ◌≢◌, ℕ, List, Option, IfOk, IsErrOf, IsTrue, decimal};
ghost use Rattle.at_syntax.specs.Did.{is_did};
ghost use Rattle.at_syntax.specs.Host.{is_host};
ghost use Rattle.relay_cli.specs.declared.words_fault.WordsFault.{WordsFault};
ghost use Rattle.relay_cli.specs.Commands.{IsCollection, IsNumber, IsTime, collection_word};

use crate::words_fault::WordsFault;
use at_cid::Words;
use at_form::LONGEST_SHORT_TEXT;
use at_syntax::{collection_ok, did_ok, host_ok};
use itoa::Buffer;
use std::alloc::Global;

/// The number that a word is: in decimal digits alone, with no zero in front.
pub fn number_from(word: &str, least: u64, most: u64) -> Result<u64, WordsFault>
    ensures number { IfOk result (λ n. IsNumber least most n × (word.now ≡ decimal n)) }
    ensures none { IsErrOf result WordsFault.NoCommand → (n : ℕ) → IsNumber least most n
        → word.now ≢ decimal n }
    ensures no_memory { result ≢ Err WordsFault.Memory }
{
    match word.parse::<u64>() {
        Ok(number) if least <= number && number <= most && Buffer::new().format(number) == word => {
            Ok(number)
        }
        _ => Err(WordsFault::NoCommand),
    }
}

/// The DID that a word is.
pub fn did_from(alloc: Global, word: &str) -> Result<Words, WordsFault>
    ensures did { IfOk result (λ did. IsTrue (is_did did) × (did ≡ word.now)) }
    ensures none { IsErrOf result WordsFault.NoCommand → IsTrue (is_did word.now) → ⊥ }
{
    if !did_ok(word) {
        return Err(WordsFault::NoCommand);
    }
    Ok(Words::from_str(alloc, word)?)
}

/// The host name that a word is.
pub fn host_from(alloc: Global, word: &str) -> Result<Words, WordsFault>
    ensures host { IfOk result (λ host. IsTrue (is_host host) × (host ≡ word.now)) }
    ensures none { IsErrOf result WordsFault.NoCommand → IsTrue (is_host word.now) → ⊥ }
{
    if !host_ok(word) {
        return Err(WordsFault::NoCommand);
    }
    Ok(Words::from_str(alloc, word)?)
}

/// The time that a word is: any text of 1 to 64 bytes.
pub fn time_from(alloc: Global, word: &str) -> Result<Words, WordsFault>
    ensures time { IfOk result (λ time. IsTime time × (time ≡ word.now)) }
    ensures none { IsErrOf result WordsFault.NoCommand → IsTime word.now → ⊥ }
{
    if word.is_empty() || word.len() > LONGEST_SHORT_TEXT {
        return Err(WordsFault::NoCommand);
    }
    Ok(Words::from_str(alloc, word)?)
}

/// The collection that a word is, or none where it is `-`, which stands for all.
pub fn collection_from(alloc: Global, word: &str) -> Result<Option<Words>, WordsFault>
    ensures collection { IfOk result (λ found. IsCollection found
        × (word.now ≡ collection_word found)) }
    ensures none { IsErrOf result WordsFault.NoCommand → (collection : Option (List ℕ))
        → IsCollection collection → word.now ≢ collection_word collection }
{
    if word == "-" {
        return Ok(None);
    }
    if !collection_ok(word) {
        return Err(WordsFault::NoCommand);
    }
    Ok(Some(Words::from_str(alloc, word)?))
}
