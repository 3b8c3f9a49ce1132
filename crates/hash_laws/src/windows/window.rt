//! Whether two texts differ within a few adjacent places, or one block, only.
ghost use Rattle.std.specs.Prelude.{◌≡◌, ◌≢◌, ◌<◌, ◌≤◌, ◌↔◌, ℕ, List, ◌∷◌, ◌++◌, IsTrue, IfNone, IfSome, length};
ghost use Rattle.hash_laws.specs.DifferWithin.{AgreeFrom, AgreeUnder, DifferAtOnePlace, DifferInOneBlock, DifferWithin, IsFirstDifference};

/// Whether the texts have one length and differ, but only within `places` adjacent places, and at every place
/// only in bits that are 0 in `mask`. A text shorter than `places` is one window.
pub fn is_window(x: &[u8], y: &[u8], places: usize, mask: u8) -> bool
    ensures { IsTrue result ↔ DifferWithin places mask x.now y.now }
{
    if x.len() != y.len() || !agree_under(mask, x, y) {
        return false;
    }
    match first_difference(x, y) {
        None => false,
        Some(from) => x.len() - from <= places || x[from + places..] == y[from + places..],
    }
}

/// Whether the texts have one length and exactly one place differs.
pub fn differ_at_one_place(x: &[u8], y: &[u8]) -> bool
    ensures { IsTrue result ↔ DifferAtOnePlace x.now y.now }
{
    is_window(x, y, 1, 0)
}

/// A law with no code, for texts that a caller has in parts: a front, two different middles of one length, and a back
/// differ within as many places as a middle has. With one byte each in the middle they differ at one place.
pub fn texts_of_one_frame()
    ensures within { (places mask : ℕ) (front x y back : List ℕ)
        → length x ≡ length y → length x ≤ places → x ≢ y
        → AgreeUnder mask x y → DifferWithin places mask (front ++ (x ++ back)) (front ++ (y ++ back)) }
    ensures one_place { (front back : List ℕ) (b c : ℕ) → b ≢ c
        → DifferAtOnePlace (front ++ b ∷ back) (front ++ c ∷ back) }
{}

/// Whether the bytes of two texts of one length agree, at every place, in the bits of the mask.
fn agree_under(mask: u8, x: &[u8], y: &[u8]) -> bool
    requires { length x.now ≡ length y.now }
    ensures { IsTrue result ↔ AgreeUnder mask x.now y.now }
{
    x.iter().zip(y).all(|(a, b)| a & mask == b & mask)
}

/// The first place at which two texts of one length differ; `None` if they are equal.
pub fn first_difference(x: &[u8], y: &[u8]) -> Option<usize>
    requires { length x.now ≡ length y.now }
    ensures none { IfNone result (x.now ≡ y.now) }
    ensures some { IfSome result (λ i. IsFirstDifference i x.now y.now) }
{
    x.iter().zip(y).position(|(a, b)| a != b)
}

/// Whether two texts of one length agree from a place on.
pub fn agree_from(x: &[u8], y: &[u8], place: usize) -> bool
    requires { length x.now ≡ length y.now }
    ensures { IsTrue result ↔ AgreeFrom place x.now y.now }
{
    place >= x.len() || x[place..] == y[place..]
}

/// Whether the texts have one length and differ, but only within one block of `N` bytes, or after the whole blocks.
pub fn differ_in_one_block<const N: usize>(x: &[u8], y: &[u8]) -> bool
    requires { 0 < N }
    ensures { IsTrue result ↔ DifferInOneBlock N x.now y.now }
{
    if x.len() != y.len() {
        return false;
    }
    match first_difference(x, y) {
        None => false,
        Some(from) => {
            let behind = N - from % N;
            behind >= x.len() - from || agree_from(x, y, from + behind)
        }
    }
}
