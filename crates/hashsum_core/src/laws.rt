//! What a check is proved to see, as laws with no code of their own, over any files: of the text that was read of a file. Of a file whose
//! bytes are not known, as one of the disk, they say that some text has the hash. A text's length is that of its file. Behind them what they
//! say of each hash of the table, in words.
ghost use Rattle.std.specs.Prelude.{◌≡◌, ◌≢◌, ◌^◌, ◌<◌, ℕ, Bool, true, false, All, Contains, List, [], ◌∷◌, Ok, Option, Some, codes, map};
ghost use Rattle.cli.specs.Call.{given, operands, Saying};
ghost use Rattle.cli.specs.Files.{files_or};
ghost use Rattle.cli.specs.Frame.{request_of};
ghost use Rattle.cli.specs.Outcome.{status_of};
ghost use Rattle.cli.specs.declared.frame.Request.TheVariants.{Work};
ghost use Rattle.cli.specs.declared.frame.Text.{Text};
ghost use Rattle.streams.specs.declared.failure.Nothing.{Nothing};
ghost use Rattle.cli.specs.declared.outcome.Outcome.{Outcome};
ghost use Rattle.hashers.specs.DifferWithin.{DifferAtOnePlace, DifferWithin};
ghost use Rattle.hashers.specs.Fx.{words32, words64};
ghost use Rattle.hashers.specs.Text.{IsText};
ghost use Rattle.hash_laws.specs.DifferWithin.{DifferInOneBlock};
ghost use Rattle.hash_theorems.specs.Xxh32Words.{DifferInOneWord};
ghost use Rattle.hash_lines.specs.declared.line.Form.{Form};
ghost use Rattle.hash_lines.specs.Told.{AreTags, MayBeTold, Tells};
ghost use Rattle.hash_theorems.specs.Bursts.{DifferWithinBits};
ghost use Rattle.hashsum_core.specs.declared.check.Checking.{Checking};
ghost use Rattle.hashsum_core.specs.declared.outcome.Misuse.{Misuse};
ghost use Rattle.hashsum_core.specs.declared.outcome.Task.TheVariants.{Check};
ghost use Rattle.hashsum_core.specs.Checking.{TellsAny};
ghost use Rattle.hashsum_core.specs.Ended.{GivesKeys, HasEndedWell};
ghost use Rattle.hashsum_core.specs.Keys.{ArePoly61Keys};
ghost use Rattle.hashsum_core.specs.Laws.{DifferAtOneWord, FewPairsPass, IsSeen, NeverPasses};
ghost use Rattle.hashsum_core.specs.Lists.{EndsLists};
ghost use Rattle.hashsum_core.specs.Passed.{HasHash, HasPassed, LineTells, ListTells};
ghost use Rattle.hashsum_core.specs.Program.{asks_for_poly61, asks_for_siphash24, checking_of, taken, EndsTask, EndsCall};
ghost use Rattle.hash_kinds.specs.Named.{bits_of, hash_of, read_of};
ghost use Rattle.hash_lines.specs.Line.{digits_of, line_of};
ghost use Rattle.hash_lines.specs.Sums.{is_named, kind_of, kinds, name_in, number_named, poly61_at_both, siphash24_at, sum_of, takes_keys, width_in};
ghost use Rattle.hashsum_core.specs.Files.{sum_under};
ghost use Rattle.hash_kinds.specs.declared.table.Kind.{Kind};
ghost use Rattle.hash_kinds.specs.declared.table.Kind.TheVariants as row;
ghost use Rattle.hash_lines.specs.declared.sums.Sum.{Sum};
ghost use Rattle.hash_lines.specs.declared.sums.Sum.TheVariants.{Table};

use cli::folder::Folder;
use hash_keyed::laws::few_pairs_for_two_texts;
use hash_kinds::table::Kind;
use hash_lines::laws::{tags_by_their_names, written_lines_tell};
use hash_lines::sums::{Sum, Wide};
use hash_more::crc32::{Crc32Hasher, Crc32cHasher};
use hash_more::djb2_add::Djb2AddHasher;
use hash_more::elf::ElfHasher;
use hash_more::fnv1::{Fnv1Hasher32, Fnv1Hasher64};
use hash_more::joaat::JoaatHasher;
use hash_names::table::Ported;
use hash_theorems::blocks::{
    one_changed_block_shows_in_murmur3_128, one_changed_word_shows_in_murmur3_32,
    one_changed_word_shows_in_xxh32,
};
use hash_theorems::more::windows::windows_tell_apart as relatives_tell_apart;
use hashers::fnv::{FNV1aHasher32, FNV1aHasher64};
use hashers::fx_hash::{FxHasher32, FxHasher64};
use hashers::jenkins::OAATHasher;
use hashers::laws::{
    one_changed_byte_shows, one_changed_word_shows_fx, text_stays_in_range, windows_tell_apart,
};
use hashers::oz::{DJB2Hasher, LoseLoseHasher, SDBMHasher};
use hashers::pigeon::Bricolage;
use std::io::Read;

/// Each hash that a line can tell and that takes no keys is the one of its name.
pub fn each_kind_has_the_hash_of_its_name()
    ensures { (sum : Sum) (keys : ℕ × ℕ) → takes_keys sum ≡ false
        → number_named (name_in sum) ≡ Some (sum_of keys sum) }
{}

/// The hashes that a line can tell have tags, no two the same: so what is written of a file whose name has a byte is read as that, and
/// says one thing.
pub fn kinds_are_tags()
    ensures { (keyed : Bool) (default : Sum) → AreTags (kinds keyed) default }
{
    tags_by_their_names();
}

/// Each hash that a line can tell is found by its name, in letters of either case.
pub fn each_name_is_found()
    ensures { (keyed : Bool) (sum : Sum) → Contains (kinds keyed) sum → (word : List ℕ)
        → is_named word (name_in sum) ≡ true → kind_of (kinds keyed) (Some word) ≡ Some sum }
{}

/// The hash of each text, in one call and as it is read, is below 2 to the power of the bits that the table has of it.
pub fn each_hash_fits()
    ensures whole { (kind : Kind) (text : List ℕ) → IsText text → hash_of kind text < 2 ^ bits_of kind }
    ensures read { (kind : Kind) (text : List ℕ) → IsText text → read_of kind text < 2 ^ bits_of kind }
{
    text_stays_in_range::<FNV1aHasher32>();
    text_stays_in_range::<FNV1aHasher64>();
    text_stays_in_range::<DJB2Hasher>();
    text_stays_in_range::<Bricolage>();
    text_stays_in_range::<FxHasher64>();
    text_stays_in_range::<FxHasher32>();
    text_stays_in_range::<Crc32Hasher>();
    text_stays_in_range::<Crc32cHasher>();
    text_stays_in_range::<Fnv1Hasher32>();
    text_stays_in_range::<Fnv1Hasher64>();
    text_stays_in_range::<Djb2AddHasher>();
    text_stays_in_range::<ElfHasher>();
}

/// The number of each text has as many digits as its line gives it: so a line that is written with escapes, of a file whose name has a
/// byte, is read back.
pub fn each_number_has_its_digits()
    ensures { (keys : ℕ × ℕ) (sum : Sum) (text : List ℕ) → keys.0 < 2 ^ 64 → keys.1 < 2 ^ 64 → IsText text
        → sum_of keys sum text < 16 ^ digits_of (width_in sum) }
{
    each_hash_fits();
}

/// What is written of a file that holds a text, and whose name has a byte, tells the hash of this text, in either form, with escapes or
/// without.
pub fn what_is_written_of_a_text_tells_its_hash()
    ensures { (keys : ℕ × ℕ) (kinds : List Sum) (default kind : Sum) (form : Form)
        → MayBeTold kinds default form kind
        → keys.0 < 2 ^ 64 → keys.1 < 2 ^ 64
        → (escapes : Bool) (name text : List ℕ) → name ≢ [] → IsText text → let number = sum_of keys kind text in
        Tells kinds default kind name number (line_of form escapes kind name number) }
{
    each_number_has_its_digits();
    written_lines_tell();
}

/// A file that differs from the text of its line only within so many neighbouring bytes, and under djb2 and djb2_add only in the low
/// five bits of each, never passes the check; by the CRCs none that differs only within 32 neighbouring bits.
pub fn a_changed_stretch_never_passes<R: Read, F: Folder<R>>()
    ensures djb2 { NeverPasses F.opens (codes "djb2") (DifferWithin 6 0xE0) }
    ensures sdbm { NeverPasses F.opens (codes "sdbm") (DifferWithin 3 0) }
    ensures fnv64 { NeverPasses F.opens (codes "fnv1a64") (DifferWithin 3 0) }
    ensures fnv32 { NeverPasses F.opens (codes "fnv1a32") (DifferWithin 2 0) }
    ensures crc32 { NeverPasses F.opens (codes "crc32") (DifferWithin 4 0) }
    ensures crc32c { NeverPasses F.opens (codes "crc32c") (DifferWithin 4 0) }
    ensures crc32_bits { NeverPasses F.opens (codes "crc32") (DifferWithinBits 32) }
    ensures crc32c_bits { NeverPasses F.opens (codes "crc32c") (DifferWithinBits 32) }
    ensures djb2_add { NeverPasses F.opens (codes "djb2_add") (DifferWithin 6 0xE0) }
    ensures fnv1_64 { NeverPasses F.opens (codes "fnv1_64") (DifferWithin 3 0) }
    ensures fnv1_32 { NeverPasses F.opens (codes "fnv1_32") (DifferWithin 2 0) }
{
    windows_tell_apart();
    relatives_tell_apart();
}

/// A file that differs from the text of its line at exactly one byte never passes the check, by each of these names.
pub fn a_changed_byte_never_passes<R: Read, F: Folder<R>>()
    ensures fnv32 { NeverPasses F.opens (codes "fnv1a32") DifferAtOnePlace }
    ensures fnv64 { NeverPasses F.opens (codes "fnv1a64") DifferAtOnePlace }
    ensures djb2 { NeverPasses F.opens (codes "djb2") DifferAtOnePlace }
    ensures sdbm { NeverPasses F.opens (codes "sdbm") DifferAtOnePlace }
    ensures loselose { NeverPasses F.opens (codes "loselose") DifferAtOnePlace }
    ensures bricolage { NeverPasses F.opens (codes "bricolage") DifferAtOnePlace }
    ensures oaat { NeverPasses F.opens (codes "oaat") DifferAtOnePlace }
    ensures joaat { NeverPasses F.opens (codes "joaat") DifferAtOnePlace }
    ensures crc32 { NeverPasses F.opens (codes "crc32") DifferAtOnePlace }
    ensures crc32c { NeverPasses F.opens (codes "crc32c") DifferAtOnePlace }
    ensures djb2_add { NeverPasses F.opens (codes "djb2_add") DifferAtOnePlace }
    ensures fnv1_64 { NeverPasses F.opens (codes "fnv1_64") DifferAtOnePlace }
    ensures fnv1_32 { NeverPasses F.opens (codes "fnv1_32") DifferAtOnePlace }
{
    one_changed_byte_shows::<FNV1aHasher32>();
    one_changed_byte_shows::<FNV1aHasher64>();
    one_changed_byte_shows::<DJB2Hasher>();
    one_changed_byte_shows::<SDBMHasher>();
    one_changed_byte_shows::<LoseLoseHasher>();
    one_changed_byte_shows::<Bricolage>();
    one_changed_byte_shows::<OAATHasher>();
    one_changed_byte_shows::<JoaatHasher>();
    one_changed_byte_shows::<Crc32Hasher>();
    one_changed_byte_shows::<Crc32cHasher>();
    one_changed_byte_shows::<Djb2AddHasher>();
    one_changed_byte_shows::<Fnv1Hasher64>();
    one_changed_byte_shows::<Fnv1Hasher32>();
}

/// A file of the text's length that differs from the text of its line in exactly one word, of eight bytes (four for fxhash32) or of
/// what is left behind these, never passes the check.
pub fn a_changed_word_never_passes<R: Read, F: Folder<R>>()
    ensures fxhash { NeverPasses F.opens (codes "fxhash") (DifferAtOneWord words64) }
    ensures fxhash64 { NeverPasses F.opens (codes "fxhash64") (DifferAtOneWord words64) }
    ensures fxhash32 { NeverPasses F.opens (codes "fxhash32") (DifferAtOneWord words32) }
{
    one_changed_word_shows_fx();
}

/// A file of the text's length that differs from the text of its line only within four bytes from a place that 4 divides
/// never passes the check by MurmurHash3 and XXH32 of 32 bits, nor one that differs only within 16 bytes from a place that
/// 16 divides by MurmurHash3 of 128 bits; by MurmurHash3 also only within the bytes behind these.
pub fn a_changed_block_never_passes<R: Read, F: Folder<R>>()
    ensures murmur3_32 { NeverPasses F.opens (codes "murmur3_32") (DifferInOneBlock 4) }
    ensures xxh32 { NeverPasses F.opens (codes "xxh32") DifferInOneWord }
    ensures murmur3_128 { NeverPasses F.opens (codes "murmur3_128") (DifferInOneBlock 16) }
{
    one_changed_block_shows_in_murmur3_128();
    one_changed_word_shows_in_murmur3_32();
    one_changed_word_shows_in_xxh32();
}

/// If a file holds another text than the one that its line was made of, it passes the check by poly61 under few pairs of
/// keys only: at most the square of one more than the longer text has words.
pub fn few_pairs_pass_another_text<R: Read, F: Folder<R>>()
    ensures { FewPairsPass F.opens poly61_at_both }
{
    few_pairs_for_two_texts();
}

/// Of lists that all pass, each was opened and read to its end, and none of their lines fails: of each that tells a hash, the
/// file was opened and the text that was read of it has this hash, or it is not there and such files are left out. Of at least
/// one line of each list, the file has the hash.
pub fn lists_that_pass<R: Read, F: Folder<R>>()
    ensures { (folder : F) (kinds : List Sum) (checking : Checking) (lists : List (List ℕ))
        (written written' : Option (List ℕ))
        → EndsLists kinds checking (F.opens folder) lists written written' (Ok true)
        → All (HasPassed kinds checking (F.opens folder)) lists }
{}

/// Where a check ends with the status 0, each of its lists was opened and read to its end, and none of their lines fails: of each that
/// tells a hash, in any form, the file was opened and the text that was read of it has this hash, or it is not there and such files are
/// left out; none needs keys that are not given. Of at least one line of each list, the file has the hash.
pub fn a_check_that_ends_well<R: Read, F: Folder<R>>()
    ensures { (folder : F) (checking : Checking) (lists : List (List ℕ))
        (written written' : Option (List ℕ)) (outcome : Outcome Misuse Nothing)
        → EndsTask (F.opens folder) lists written written' (Ok (Check checking)) outcome
        → status_of outcome ≡ 0 → All (HasPassed (taken checking) checking (F.opens folder)) lists }
{}

/// The same of a call with `-c`: nothing else is wrong with it, and its lists passed, with lines of the hash alone that `-a` or a key file
/// asks for, and of all hashes without these. Lines of poly61 and siphash24 are under the keys in the key file; those of poly61 are none
/// that pass every file.
pub fn a_call_that_ends_well<R: Read, F: Folder<R>>()
    ensures { (folder : F) (call : List Saying) (texts : Text → List ℕ) (written written' : Option (List ℕ))
        (outcome : Outcome Misuse Nothing) → request_of call ≡ Work → given (codes "check") call ≡ true
        → EndsCall (F.opens folder) call texts written written' outcome
        → status_of outcome ≡ 0 → HasEndedWell (F.opens folder) call }
{}

/// What a list that passed tells of a file, in a line of ours, is so: the file was opened, and the text that was read of it has the hash,
/// or it is not there and such files are left out. The hashes that can be told have tags, no two the same. `read` speaks of the lines
/// that were read of a list, `told` of lists whose text the folder tells, and so of none on the disk.
pub fn what_a_list_tells_is_so<R: Read, F: Folder<R>>()
    ensures read { (folder : F) (kinds : List Sum) (checking : Checking)
        (list : List ℕ) (kind : Sum) (name : List ℕ) (number : ℕ) → AreTags kinds checking.kind
        → (passed : HasPassed kinds checking (F.opens folder) list) (line : List ℕ)
        → Contains (map (λ line. line.0) passed.lines) line → LineTells kinds checking list line kind name number
        → HasHash checking (F.opens folder) kind name number }
    ensures told { (folder : F) (kinds : List Sum) (checking : Checking)
        (list : List ℕ) (kind : Sum) (name : List ℕ) (number : ℕ)
        → AreTags kinds checking.kind → HasPassed kinds checking (F.opens folder) list
        → ListTells kinds checking (F.opens folder) list kind name number
        → HasHash checking (F.opens folder) kind name number }
{}

/// The same of a call with `-c` that ended well, of each of its lists.
pub fn what_a_call_is_told_is_so<R: Read, F: Folder<R>>()
    ensures { (folder : F) (call : List Saying) → (ended : HasEndedWell (F.opens folder) call)
        → (list : List ℕ) → Contains (files_or (operands call)) list
        → (kind : Sum) (name : List ℕ) (number : ℕ) → let checking = checking_of call ended.keys ended.kind in
        ListTells (taken checking) checking (F.opens folder) list kind name number
        → HasHash checking (F.opens folder) kind name number }
{
    kinds_are_tags();
}

/// Where one hash is asked for, each line that is checked is of that hash, in whichever form it is.
pub fn lines_of_one_hash()
    ensures { (sfv : Bool) (kind other : Sum) (name : List ℕ) (number : ℕ) (line : List ℕ)
        → TellsAny sfv (kind ∷ []) kind other name number line → other ≡ kind }
{}

/// Where poly61 or siphash24 is asked for, there is a key file, and the hash of each line is that at the keys in it.
pub fn lines_under_the_keys<R: Read, F: Folder<R>>()
    ensures poly61 { (folder : F) (call : List Saying) → asks_for_poly61 call ≡ true
        → (ended : HasEndedWell (F.opens folder) call) → (keys : ℕ × ℕ) × GivesKeys (F.opens folder) call keys
        × ArePoly61Keys keys × (sum_under ended.keys ended.kind ≡ poly61_at_both keys) }
    ensures siphash24 { (folder : F) (call : List Saying) → asks_for_siphash24 call ≡ true
        → (ended : HasEndedWell (F.opens folder) call) → (keys : ℕ × ℕ) × GivesKeys (F.opens folder) call keys
        × (sum_under ended.keys ended.kind ≡ siphash24_at keys) }
{}

/// What `seen` says of a ported hash.
fn seen_in_ported<R: Read, F: Folder<R>>(ported: Ported) -> &'static str
    ensures { IsSeen F.opens (Table (row.Ported ported)) result.now }
{
    a_changed_stretch_never_passes::<R, F>();
    a_changed_byte_never_passes::<R, F>();
    a_changed_word_never_passes::<R, F>();
    match ported {
        Ported::Fnv1a32 => "1 changed byte, or changes within 2 neighbouring bytes",
        Ported::Fnv1a64 | Ported::Sdbm => "1 changed byte, or changes within 3 neighbouring bytes",
        Ported::Djb2 => "1 changed byte, or changes within 6 in the low 5 bits",
        Ported::FxHash | Ported::FxHash64 => "1 changed word, of 8 bytes",
        Ported::FxHash32 => "1 changed word, of 4 bytes",
        Ported::LoseLose | Ported::Bricolage | Ported::Oaat => "1 changed byte",
        _ => "no promise",
    }
}

/// What `seen` says of a hash of the table.
fn seen_in_table<R: Read, F: Folder<R>>(kind: Kind) -> &'static str
    ensures { IsSeen F.opens (Table kind) result.now }
{
    a_changed_stretch_never_passes::<R, F>();
    a_changed_byte_never_passes::<R, F>();
    a_changed_block_never_passes::<R, F>();
    match kind {
        Kind::Ported(ported) => seen_in_ported::<R, F>(ported),
        Kind::Fnv1At32 => "1 changed byte, or changes within 2 neighbouring bytes",
        Kind::Fnv1At64 => "1 changed byte, or changes within 3 neighbouring bytes",
        Kind::Djb2Add => "1 changed byte, or changes within 6 in the low 5 bits",
        Kind::Crc32 | Kind::Crc32c => "1 changed byte, or changes within 32 neighbouring bits",
        Kind::Murmur3At32 | Kind::Xxh32 => "1 changed word, of 4 bytes",
        Kind::Joaat => "1 changed byte",
        _ => "no promise",
    }
}

/// What a check by a hash is proved to see in a file of the same length, by these laws, in words.
pub fn seen<R: Read, F: Folder<R>>(sum: Sum) -> &'static str
    ensures { IsSeen F.opens sum result.now }
{
    a_changed_block_never_passes::<R, F>();
    few_pairs_pass_another_text::<R, F>();
    match sum {
        Sum::Table(kind) => seen_in_table::<R, F>(kind),
        Sum::Wide(Wide::Murmur3) => "1 changed block, of 16 bytes",
        Sum::Poly61 => "any change, but under few keys",
        _ => "no promise",
    }
}
