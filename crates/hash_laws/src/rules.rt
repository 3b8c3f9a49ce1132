//! A hash that takes a step for each byte is a rule, and one hasher, [`ByteHasher`], serves all rules.

mod byte_hasher;
mod byte_rule;
pub mod constants;
mod plain_rule;
mod texts;

pub use byte_hasher::ByteHasher;
pub use byte_rule::{ByteRule, StepRule, UndoRule};
pub use plain_rule::{Plain, PlainRule, PlainUndo, Word};
pub use texts::{alone_or_in_eights, hash_by_plain, hash_by_rule, in_eights};
