//! SipHash-c-d, by Jean-Philippe Aumasson and Daniel J. Bernstein: a block-based hash under a key of 128 bits.

mod hasher;
mod keys;
mod rounds;

pub use hasher::{SipHasher13, SipHasher24, SipKey, SipRule, siphash13, siphash24};
pub use keys::SipKeys;
pub use rounds::{sip_round, sip_unround, sip_word_out};
