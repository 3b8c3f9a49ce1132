//! What hashers promise, and what follows for all of them.
//!
//! A text is a list of bytes, a piece is a text that is fed in one call, and a state is what a hasher keeps of what it
//! was fed. Each type says what its states are, which state a piece leads to and what a state answers, and proves the
//! laws of its traits. The generic functions below are proved once, from these laws alone.
ghost use Rattle.std.specs.Prelude.{◌≡◌, ◌≢◌, ◌%◌, ◌<◌, ◌≤◌, ◌↔◌, ℕ, List, [], ◌∷◌, ◌++◌, fold, IsSome, IfSome, IfNone, IsTrue};
ghost use Rattle.std.specs.Bool.{OnTrue};
ghost use Rattle.hash_laws.specs.Text.{IsText, texts, joined};

use std::hash::Hasher;

/// A hasher whose state after a piece, and whose answer, have definitions.
///
/// std's `Hasher` says that `write` and `finish` are functions of the hasher, and not which. So generic code calls `feed`
/// and `answer`, which are `write` and `finish` under this trait's contract.
pub trait Piecewise: Default + Hasher + Drop {
    /// What the states of the type are.
    ghost State: { Type 0 };

    /// The state of a hasher. What a hasher keeps beside it, as a count of calls, no law looks at.
    ghost state: { Self → State };

    /// Holds of the states in the type's range.
    ghost in_range: { State → Type 0 };

    /// The state of a default hasher.
    ghost fresh: { State };

    /// The state after a piece.
    ghost after: { State → List ℕ → State };

    /// What a state answers.
    ghost answer: { State → ℕ };

    /// The hash of a text: what a default hasher answers to it as one piece.
    ghost hash_of: { List ℕ → ℕ };

    /// The default hasher, which is one value.
    ghost first: { Self };

    /// A default hasher.
    fn fresh() -> Self
        ensures is_default { Self.is_default result }
        ensures state { state result ≡ fresh }
        ensures in_range { in_range (state result) }
    {
        Self::default()
    }

    /// A law with no code: a hasher's state is in range.
    fn state_in_range(&self)
        ensures { in_range (state self.now) };

    /// Takes a piece in: `write` under this trait's contract.
    #[inline(always)]
    fn feed(&mut self, piece: &[u8])
        ensures written { self.new ≡ Self.write self.old piece.now }
        ensures state { state self.new ≡ after (state self.old) piece.now }
        ensures in_range_before { in_range (state self.old) }
        ensures in_range_after { in_range (state self.new) }
        ensures text { IsText piece.now }
    {
        self.state_in_range();
        self.write(piece);
    }

    /// The hash of what was fed so far: `finish` under this trait's contract. Asking changes nothing.
    #[inline(always)]
    fn answer(&self) -> u64
        ensures finished { result ≡ Self.finish self.now }
        ensures value { result ≡ answer (state self.now) }
        ensures in_range { in_range (state self.now) }
    {
        self.state_in_range();
        self.finish()
    }

    /// The hash of a text in one call. A type with a shorter way than a default hasher, `feed` and `answer` takes it here, and
    /// whatever hashes whole texts goes that way.
    fn whole(text: &[u8]) -> u64
        ensures { result ≡ hash_of text.now }
    {
        let mut hasher = Self::fresh();
        hasher.feed(text);
        hasher.answer()
    }

    /// Another hasher of the same value: a text's beginning is hashed once, and many endings after it.
    fn fork(&self) -> Self
        ensures { result ≡ self.now };

    /// Every default hasher is the first one.
    ghost default_is_first: { (h : Self) → Self.is_default h → h ≡ first };

    /// The first hasher's state is the fresh one.
    ghost first_is_fresh: { state first ≡ fresh };

    /// The hash of a text is the answer to the fresh state after it.
    ghost hash_of_is: { (text : List ℕ) → hash_of text ≡ answer (after fresh text) };

    /// What is written is fed.
    ghost write_feeds: { (h : Self) (piece : List ℕ) → state (Self.write h piece) ≡ after (state h) piece };

    /// What finishes answers.
    ghost finish_answers: { (h : Self) → Self.finish h ≡ answer (state h) };

    /// The fresh state is in range.
    ghost fresh_in_range: { in_range fresh };

    /// A piece leads from states in range to states in range.
    ghost after_in_range: { (s : State) (piece : List ℕ) → in_range s → IsText piece
        → in_range (after s piece) };

    /// A piece of no bytes changes nothing.
    ghost after_nothing: { (s : State) → in_range s → after s [] ≡ s };
}

/// A hasher of texts: how a text was split into pieces does not matter.
pub trait Streamed: Piecewise {
    /// Where a default hasher starts: a list of whole numbers.
    ghost start: { List ℕ };

    /// The hasher is, as it is now, one that went from a start over a text, however the text was split.
    ghost stands_at: { Self → List ℕ → List ℕ → Type 0 };

    /// The hash of a text from a start.
    ghost hash_from: { List ℕ → List ℕ → ℕ };

    /// A default hasher stands at the start, before any byte.
    ghost stands_at_start: { (h : Self) → Self.state h ≡ Self.fresh → stands_at h start [] };

    /// A piece extends the text.
    ghost stands_after: { (h k : Self) (from text piece : List ℕ) → IsText piece
        → Self.state k ≡ Self.after (Self.state h) piece
        → stands_at h from text → stands_at k from (text ++ piece) };

    /// Two pieces are one.
    ghost after_joined: { (s : Self.State) (text more : List ℕ)
        → Self.in_range s → IsText text → IsText more
        → Self.after s (text ++ more) ≡ Self.after (Self.after s text) more };

    /// What a default hasher answers to a text is its hash from the default start.
    ghost hash_from_start: { (text : List ℕ) → IsText text
        → Self.answer (Self.after Self.fresh text) ≡ hash_from start text };

    /// Where a hasher stands decides its answer.
    ghost stands_answers: { (h : Self) (from text : List ℕ) → stands_at h from text
        → Self.answer (Self.state h) ≡ hash_from from text };
}

/// A hasher whose pieces can be taken out again.
pub trait Undo: Piecewise {
    /// Holds of the numbers that some state answers.
    ghost is_answer: { ℕ → Type 0 };

    /// Takes a piece out again, whether or not it was fed: the inverse of `feed` of the same piece, both ways, on
    /// every state.
    fn unwrite(&mut self, piece: &[u8])
        // The piece leads back to where the hasher was,
        ensures back { Self.after (Self.state self.new) piece.now ≡ Self.state self.old }
        // and from wherever it led there, that is the state now.
        ensures undone { (s : Self.State) → Self.in_range s
            → Self.after s piece.now ≡ Self.state self.old → Self.state self.new ≡ s }
        ensures in_range_before { Self.in_range (Self.state self.old) }
        ensures in_range_after { Self.in_range (Self.state self.new) }
        ensures text { IsText piece.now };

    /// The one hasher that answers so, or `None` exactly where the type has none.
    fn unfinish(answer: u64) -> Option<Self>
        ensures exact { IsSome result ↔ is_answer answer }
        ensures some { IfSome result (λ h. Self.answer (Self.state h) ≡ answer) }
        ensures in_range { IfSome result (λ h. Self.in_range (Self.state h)) }
        ensures none { IfNone result ((s : Self.State) → Self.in_range s → Self.answer s ≢ answer) };

    /// A piece leads from different states to different states.
    ghost after_injective: { (s t : Self.State) (piece : List ℕ)
        → Self.in_range s → Self.in_range t → IsText piece
        → Self.after s piece ≡ Self.after t piece → s ≡ t };

    /// Different states answer differently.
    ghost answer_injective: { (s t : Self.State) → Self.in_range s → Self.in_range t
        → Self.answer s ≡ Self.answer t → s ≡ t };
}

/// A hasher that goes a step for each byte.
pub trait ByteStep: Undo + Streamed {
    /// The start from which the hasher stands with no byte after it.
    ghost own_start: { Self → List ℕ };

    /// Takes one byte in.
    fn step(&mut self, byte: u8)
        ensures state { Self.state self.new ≡ Self.after (Self.state self.old) (byte ∷ []) }
        ensures in_range_before { Self.in_range (Self.state self.old) }
        ensures in_range_after { Self.in_range (Self.state self.new) };

    /// Takes one byte out again: the inverse of `step` of the same byte, both ways, on every state.
    fn unstep(&mut self, byte: u8)
        ensures back { Self.after (Self.state self.new) (byte ∷ []) ≡ Self.state self.old }
        ensures undone { (s : Self.State) → Self.in_range s
            → Self.after s (byte ∷ []) ≡ Self.state self.old → Self.state self.new ≡ s }
        ensures in_range_before { Self.in_range (Self.state self.old) }
        ensures in_range_after { Self.in_range (Self.state self.new) };

    /// A piece is its bytes in order, a step for each.
    ghost in_steps: { (s : Self.State) (piece : List ℕ) → Self.in_range s → IsText piece
        → Self.after s piece ≡ fold (λ t byte. Self.after t (byte ∷ [])) s piece };

    /// From one state different bytes lead to different states.
    ghost byte_injective: { (s : Self.State) (x y : ℕ) → Self.in_range s → x < 256 → y < 256
        → Self.after s (x ∷ []) ≡ Self.after s (y ∷ []) → x ≡ y };

    /// Every state, also one that no text reaches, is a start: the hasher stands at (that state, no bytes).
    ghost stands_at_own_start: { (h : Self) → Self.in_range (Self.state h) → Self.stands_at h (own_start h) [] };
}

/// Feeds the pieces in order. The state is the fold of the definition over the pieces.
pub fn run_pieces<H: Piecewise>(h: &mut H, pieces: &[&[u8]])
    ensures { H.state h.new ≡ fold H.after (H.state h.old) (texts pieces.now) }
{
    for piece in pieces {
        h.feed(piece);
    }
}

/// Feeds the pieces in order, of which only the joined text counts: what stood at (start, text) stands at (start, text
/// followed by the joined pieces), and its answer is the definition of that text.
pub fn run_streamed<H: Streamed>(h: &mut H, pieces: &[&[u8]])
    ensures none { pieces.now ≡ [] → h.new ≡ h.old }
    ensures one { pieces.now ≢ [] → H.state h.new ≡ H.after (H.state h.old) (joined pieces.now) }
    ensures state { H.in_range (H.state h.old) → H.state h.new ≡ H.after (H.state h.old) (joined pieces.now) }
    ensures stands { (from text : List ℕ) → H.stands_at h.old from text
        → H.stands_at h.new from (text ++ joined pieces.now) }
    ensures answers { (from text : List ℕ) → H.stands_at h.old from text
        → H.answer (H.state h.new) ≡ H.hash_from from (text ++ joined pieces.now) }
    ensures text { IsText (joined pieces.now) }
{
    for more in pieces {
        h.feed(more);
    }
}

/// The hash of the joined pieces, from the default start.
pub fn answer_of_pieces<H: Streamed>(pieces: &[&[u8]]) -> u64
    ensures defined { result ≡ H.hash_from H.start (joined pieces.now) }
    ensures value { result ≡ H.hash_of (joined pieces.now) }
    ensures text { IsText (joined pieces.now) }
{
    let mut hasher = H::fresh();
    run_streamed(&mut hasher, pieces);
    hasher.answer()
}

/// Feeds the pieces to both hashers, in order. Their answers are equal afterwards exactly if they were equal before.
pub fn run_pair<H: Undo>(a: &mut H, b: &mut H, pieces: &[&[u8]])
    ensures first { H.state a.new ≡ fold H.after (H.state a.old) (texts pieces.now) }
    ensures second { H.state b.new ≡ fold H.after (H.state b.old) (texts pieces.now) }
    ensures alike { (H.answer (H.state a.new) ≡ H.answer (H.state b.new))
        ↔ (H.answer (H.state a.old) ≡ H.answer (H.state b.old)) }
{
    for piece in pieces {
        a.feed(piece);
        b.feed(piece);
    }
}

/// The hash of a text: what the default hasher answers to it as one piece. For a [`Streamed`] hasher it is the
/// definition of the text from the default start, by the law `hash_from_start`.
#[inline(always)]
pub fn hash_of<H: Piecewise>(text: &[u8]) -> u64
    ensures value { result ≡ H.hash_of text.now }
    ensures defined { result ≡ H.answer (H.after H.fresh text.now) }
    ensures text { IsText text.now }
{
    bytes_are_a_text(text);
    H::whole(text)
}

/// The bucket of a key among `n`: the hash of the key, mod `n`. Takes no memory.
#[inline(always)]
pub fn bucket_of<H: Piecewise>(key: &[u8], n: u64) -> u64
    requires { 1 ≤ n }
    ensures { result ≡ H.hash_of key.now % n }
{
    hash_of::<H>(key) % n
}

/// A law with no code: two texts, one after the other, are one text.
pub fn joined_texts_are_one<H: Streamed>()
    ensures { (s : H.State) (text more : List ℕ) → H.in_range s → IsText text → IsText more
        → H.after s (text ++ more) ≡ H.after (H.after s text) more }
{}

/// A law with no code: a text is its bytes in order, a step for each.
pub fn text_is_its_steps<H: ByteStep>()
    ensures { (s : H.State) (text : List ℕ) → H.in_range s → IsText text
        → H.after s text ≡ fold (λ t byte. H.after t (byte ∷ [])) s text }
{}

/// A law with no code: a text leads from states in range to states in range.
pub fn text_stays_in_range<H: Piecewise>()
    ensures { (s : H.State) (text : List ℕ) → H.in_range s → IsText text → H.in_range (H.after s text) }
{}

/// A law with no code: std's `write` of a piece leads to the state after it.
pub fn writes_are_fed<H: Piecewise>()
    ensures { (h : H) (piece : List ℕ) → H.state (H.write h piece) ≡ H.after (H.state h) piece }
{}

/// A law with no code: an empty write leaves the state unchanged.
pub fn no_bytes_change_nothing<H: Piecewise>()
    ensures { (s : H.State) → H.in_range s → H.after s [] ≡ s }
{}

/// A law with no code: the hash of a text is that from the default start.
pub fn hash_is_from_the_start<H: Streamed>()
    ensures { (text : List ℕ) → IsText text → H.hash_of text ≡ H.hash_from H.start text }
{}

/// A law with no code: bytes are a text.
pub fn bytes_are_a_text(bytes: &[u8])
    ensures { IsText bytes.now }
{
    let _ = bytes;
}

/// A law with no code: the UTF-8 of a string is a text.
pub fn string_is_a_text(string: &str)
    ensures { IsText string.now }
{
    let _ = string;
}
