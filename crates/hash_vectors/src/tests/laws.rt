//! What generic code gives at a type that it has never seen, and hashes that are undone.
use crate::tests::{all_hold, same};
use crate::times31::{Times31, Times31Rule};
use hashers::fnv::Fnv1aRule64;
use hashers::fx_hash::{FxHasher32, FxHasher64};
use hashers::jenkins::OaatRule;
use hashers::laws::{Undo, answer_of_pieces, run_pair};
use hashers::oz::{Djb2Rule, LoseLoseRule, SdbmRule};
use hashers::pigeon::BricolageRule;
use hashers::rules::{ByteHasher, Plain, PlainUndo, UndoRule};

/// Whether the hashers with the hashes 1 and 2 have different ones after the same pieces.
fn are_apart<H: Undo>() -> Option<bool> {
    let (mut a, mut b) = (H::unfinish(1)?, H::unfinish(2)?);
    run_pair(&mut a, &mut b, &[b"ab", b"", b"c"]);
    Some(a.answer() != b.answer())
}

#[test]
fn a_third_partys_hasher(rt: HostRuntime) {
    for (text, hash) in [(b"ab", 3105), (b"Aa", 2112), (b"BB", 2112)] {
        let (first, second) = text.split_at(1);
        same(
            &rt,
            &[answer_of_pieces::<Times31>(&[first, second])],
            &[hash],
        );
    }
    all_hold(&rt, &[are_apart::<Times31>() == Some(true)]);
}

/// The hash before the text, where there is a hasher with this one.
fn before<H: Undo>(hash: u64, text: &[u8]) -> Option<u64> {
    let mut hasher = H::unfinish(hash)?;
    hasher.unwrite(text);
    Some(hasher.answer())
}

/// The same of the hasher of a rule, and of a rule that keeps one word. What a hasher of a rule promises is shown once here, and not at
/// each call.
fn before_by_rule<R: UndoRule>(hash: u64, text: &[u8]) -> Option<u64> {
    before::<ByteHasher<R>>(hash, text)
}

fn before_by_plain<R: PlainUndo>(hash: u64, text: &[u8]) -> Option<u64> {
    before_by_rule::<Plain<R>>(hash, text)
}

#[test]
fn texts_are_undone(rt: HostRuntime) {
    let got = [
        before_by_plain::<Fnv1aRule64>(12638187200555641996, b"a"),
        before_by_plain::<OaatRule>(29161854018, b"a"),
        before_by_plain::<BricolageRule>(16461606921607156355, b"b"),
        before_by_rule::<SdbmRule>(6363201, b"b"),
        before_by_rule::<LoseLoseRule>(0, b"ab"),
        before::<FxHasher64>(16160435425421689461, b"a"),
        before_by_plain::<Djb2Rule>(177604, b"a"),
        before_by_plain::<Djb2Rule>(4294967296, b""),
        before_by_plain::<Times31Rule>(4294967296, b""),
        before::<FxHasher32>(4294967296, b""),
    ];
    let wanted = [
        Some(14695981039346656037),
        Some(0),
        Some(17926483712435944715),
        Some(97),
        Some(18446744073709551421),
        Some(0),
        Some(5381),
        None,
        None,
        None,
    ];
    all_hold(&rt, &[got == wanted]);
}
