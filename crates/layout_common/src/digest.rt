//! Sets of glyphs that may have more than were added, and never fewer (rustybuzz: hb/set_digest.rs).
ghost use Rattle.std.specs.Prelude.{ℕ, Bool, List, [], ◌∷◌, ◌++◌, ◌&&◌, ◌≡◌, ◌==◌, ◌||◌, ◌+◌, ◌-◌, ◌/◌, ◌^◌, ◌≤◌, ◌<◌, ◌↔◌, false, true, nat_lt};
ghost use Rattle.layout_common.specs.Buckets.{IsMaskOf, bucket, has_bucket, is_bucket_from, is_bucket_of, may_have_glyph, numbers_from, shares_bucket};
ghost use Rattle.layout_common.specs.Coverage.{is_covered};

/// A set of glyphs that may have more than were added: those that are in one bucket with an added glyph, for each kind
/// of buckets that the set has.
pub trait hb_set_digest_ext: Copy {
    ghost may_contain: { Self → ℕ → Bool };

    // these glyphs were added, and no others
    ghost IsDigestOf: { Self → List ℕ → Type 0 };

    // for each kind of buckets, a glyph is in the bucket of one of some glyphs
    ghost shares_buckets: { List ℕ → ℕ → Bool };

    /// The empty set.
    fn new() -> Self
        ensures none { (g : ℕ) → may_contain result g ≡ false }
        ensures exact { IsDigestOf result [] };

    /// The set of all glyphs.
    fn full() -> Self
        ensures { (g : ℕ) → may_contain result g ≡ true };

    /// Adds a glyph. What was there stays.
    fn add(&mut self, glyph: u16)
        ensures added { may_contain self.new glyph ≡ true }
        ensures stays { (g : ℕ) → may_contain self.old g ≡ true → may_contain self.new g ≡ true }
        ensures exact { (glyphs : List ℕ) → IsDigestOf self.old glyphs → IsDigestOf self.new (glyphs ++ glyph ∷ []) };

    /// Adds glyphs. What was there stays.
    fn add_array(&mut self, glyphs: &[u16])
        ensures added { (g : ℕ) → is_covered g glyphs.now ≡ true → may_contain self.new g ≡ true }
        ensures stays { (g : ℕ) → may_contain self.old g ≡ true → may_contain self.new g ≡ true }
        ensures exact { (others : List ℕ) → IsDigestOf self.old others → IsDigestOf self.new (others ++ glyphs.now) };

    /// Adds the glyphs from one to another, none where the last is before the first. What was there stays. It answers
    /// whether the set lacks a glyph.
    fn add_range(&mut self, first: u16, last: u16) -> bool
        ensures added { (g : ℕ) → first ≤ g → g ≤ last → may_contain self.new g ≡ true }
        ensures stays { (g : ℕ) → may_contain self.old g ≡ true → may_contain self.new g ≡ true }
        ensures all { result ≡ false ↔ ((g : ℕ) → may_contain self.new g ≡ true) }
        ensures exact { (others : List ℕ) → IsDigestOf self.old others
            → IsDigestOf self.new (others ++ numbers_from first (last + 1 - first)) };

    /// Whether the set may have a glyph.
    fn may_have_glyph(&self, glyph: u16) -> bool
        ensures { result ≡ may_contain self.now glyph };

    /// Whether the sets may have a glyph in common. Where they may not, no glyph is in both.
    fn may_have(&self, other: &Self) -> bool
        ensures apart { result ≡ false → (g : ℕ) → may_contain self.now g ≡ true → may_contain other.now g ≡ false };

    // a set may have exactly the glyphs that share buckets with those that were added
    ghost exact: { (s : Self) (glyphs : List ℕ) (g : ℕ) → IsDigestOf s glyphs
        → may_contain s g ≡ shares_buckets glyphs g };
}

/// A set of glyphs by 64 buckets: glyph g is in the bucket `(g >> SHIFT) mod 64`.
#[derive(Clone, Copy, Debug, Drop)]
pub struct hb_set_digest_bits_pattern_t<const SHIFT: u8> {
    mask: u64,
}

/// The set of what two sets both may have: it lacks each glyph that one of them lacks.
#[derive(Clone, Copy, Debug, Drop)]
pub struct hb_set_digest_combiner_t<A, B> {
    pub head: A,
    pub tail: B,
}

/// A set of glyphs by three kinds of buckets. It only saves time: what is skipped at a glyph that it lacks can't act
/// there.
pub type hb_set_digest_t = hb_set_digest_combiner_t<
    hb_set_digest_bits_pattern_t<4>,
    hb_set_digest_combiner_t<hb_set_digest_bits_pattern_t<0>, hb_set_digest_bits_pattern_t<9>>,
>;

impl<A: hb_set_digest_ext, B: hb_set_digest_ext> hb_set_digest_ext
    for hb_set_digest_combiner_t<A, B> {
    ghost use Rattle.layout_common.specs.Lemmas.Digests.{both_alike};

    ghost may_contain = { λ s g. A.may_contain s.head g && B.may_contain s.tail g };

    ghost IsDigestOf = { λ s glyphs. A.IsDigestOf s.head glyphs × B.IsDigestOf s.tail glyphs };

    ghost shares_buckets = { λ glyphs g. A.shares_buckets glyphs g && B.shares_buckets glyphs g };

    ghost exact = { λ s glyphs g is. both_alike (A.exact s.head glyphs g is.0) (B.exact s.tail glyphs g is.1) };

    fn new() -> Self {
        Self {
            head: A::new(),
            tail: B::new(),
        }
    }

    fn full() -> Self {
        Self {
            head: A::full(),
            tail: B::full(),
        }
    }

    fn add(&mut self, glyph: u16) {
        self.head.add(glyph);
        self.tail.add(glyph);
    }

    fn add_array(&mut self, glyphs: &[u16]) {
        self.head.add_array(glyphs);
        self.tail.add_array(glyphs);
    }

    fn add_range(&mut self, first: u16, last: u16) -> bool {
        let head = self.head.add_range(first, last);
        let tail = self.tail.add_range(first, last);
        head || tail
    }

    fn may_have_glyph(&self, glyph: u16) -> bool {
        self.head.may_have_glyph(glyph) && self.tail.may_have_glyph(glyph)
    }

    fn may_have(&self, other: &Self) -> bool {
        self.head.may_have(&other.head) && self.tail.may_have(&other.tail)
    }
}

/// The group of a glyph with its neighbours.
fn group<const SHIFT: u8>(glyph: u16) -> u32
    ensures { result ≡ glyph / 2 ^ SHIFT }
{
    if SHIFT < 16 {
        u32::from(glyph) >> SHIFT
    } else {
        0
    }
}

/// The bucket of a glyph.
fn bucket<const SHIFT: u8>(glyph: u16) -> u32
    ensures is { result ≡ bucket SHIFT glyph }
    ensures small { result < 64 }
{
    group::<SHIFT>(glyph) & 63
}

/// Whether the mask has a bucket.
pub(crate) fn has_bucket(mask: u64, bucket: u32) -> bool
    requires { bucket < 64 }
    ensures { result ≡ has_bucket mask bucket }
{
    mask >> bucket & 1 != 0
}

/// The mask with a bucket.
pub(crate) fn with_bucket(mask: u64, bucket: u32) -> u64
    requires { bucket < 64 }
    ensures { (b : ℕ) → has_bucket result b ≡ (has_bucket mask b || b == bucket) }
{
    mask | 1 << bucket
}

/// The mask with the buckets of glyphs.
fn with_glyphs<const SHIFT: u8>(mask: u64, glyphs: &[u16]) -> u64
    ensures { (b : ℕ) → has_bucket result b ≡ (has_bucket mask b || is_bucket_of SHIFT glyphs.now b) }
{
    let mut set = mask;
    for glyph in glyphs {
        set = with_bucket(set, bucket::<SHIFT>(*glyph));
    }
    set
}

/// The mask with the buckets of `count` groups from `first` on.
fn with_groups(mask: u64, first: u32, count: u32) -> u64
    requires { first + count < 2 ^ 32 }
    ensures { (b : ℕ) → has_bucket result b ≡ (has_bucket mask b || is_bucket_from first count b) }
{
    let mut set = mask;
    for k in 0..count {
        set = with_bucket(set, first + k & 63);
    }
    set
}

/// The mask with the buckets of the glyphs from one to another.
fn with_range<const SHIFT: u8>(mask: u64, first: u16, last: u16) -> u64
    ensures { (b : ℕ) → has_bucket result b
        ≡ (has_bucket mask b || is_bucket_of SHIFT (numbers_from first (last + 1 - first)) b) }
{
    if last < first {
        return mask;
    }
    let from = group::<SHIFT>(first);
    let past = group::<SHIFT>(last) - from;
    if past >= 63 {
        return u64::MAX;
    }
    with_groups(mask, from, past + 1)
}

impl<const SHIFT: u8> hb_set_digest_ext for hb_set_digest_bits_pattern_t<SHIFT> {
    ghost may_contain = { λ s g. may_have_glyph SHIFT s.mask g };

    ghost IsDigestOf = { λ s glyphs. IsMaskOf SHIFT s.mask glyphs };

    ghost shares_buckets = { shares_bucket SHIFT };

    ghost exact = { λ s glyphs g is. is (bucket SHIFT g) };

    #[tactic(auto, using(crate::proofs::Bits::empty_mask))]
    fn new() -> Self {
        Self { mask: 0 }
    }

    #[tactic(auto, using(crate::proofs::Bits::full_mask, crate::proofs::Bits::bucket_small))]
    fn full() -> Self {
        Self { mask: u64::MAX }
    }

    fn add(&mut self, glyph: u16)
        ensures added { may_have_glyph SHIFT self.new.mask glyph ≡ true }
        ensures stays { (g : ℕ) → may_have_glyph SHIFT self.old.mask g ≡ true → may_have_glyph SHIFT self.new.mask g ≡ true }
        ensures exact { (glyphs : List ℕ) → IsMaskOf SHIFT self.old.mask glyphs
            → IsMaskOf SHIFT self.new.mask (glyphs ++ glyph ∷ []) }
        ensures buckets { (b : ℕ) → has_bucket self.new.mask b ≡ (has_bucket self.old.mask b || b == bucket SHIFT glyph) }
    {
        self.mask = with_bucket(self.mask, bucket::<SHIFT>(glyph));
    }

    fn add_array(&mut self, glyphs: &[u16])
        ensures added { (g : ℕ) → is_covered g glyphs.now ≡ true → may_have_glyph SHIFT self.new.mask g ≡ true }
        ensures stays { (g : ℕ) → may_have_glyph SHIFT self.old.mask g ≡ true → may_have_glyph SHIFT self.new.mask g ≡ true }
        ensures exact { (others : List ℕ) → IsMaskOf SHIFT self.old.mask others
            → IsMaskOf SHIFT self.new.mask (others ++ glyphs.now) }
        ensures buckets { (b : ℕ) → has_bucket self.new.mask b ≡ (has_bucket self.old.mask b || is_bucket_of SHIFT glyphs.now b) }
    {
        self.mask = with_glyphs::<SHIFT>(self.mask, glyphs);
    }

    fn add_range(&mut self, first: u16, last: u16) -> bool
        ensures added { (g : ℕ) → first ≤ g → g ≤ last → may_have_glyph SHIFT self.new.mask g ≡ true }
        ensures stays { (g : ℕ) → may_have_glyph SHIFT self.old.mask g ≡ true → may_have_glyph SHIFT self.new.mask g ≡ true }
        ensures all { result ≡ false ↔ ((g : ℕ) → may_have_glyph SHIFT self.new.mask g ≡ true) }
        ensures exact { (others : List ℕ) → IsMaskOf SHIFT self.old.mask others
            → IsMaskOf SHIFT self.new.mask (others ++ numbers_from first (last + 1 - first)) }
        ensures buckets { (b : ℕ) → has_bucket self.new.mask b
            ≡ (has_bucket self.old.mask b || is_bucket_of SHIFT (numbers_from first (last + 1 - first)) b) }
    {
        self.mask = with_range::<SHIFT>(self.mask, first, last);
        self.mask != u64::MAX
    }

    fn may_have_glyph(&self, glyph: u16) -> bool {
        has_bucket(self.mask, bucket::<SHIFT>(glyph))
    }

    fn may_have(&self, other: &Self) -> bool
        ensures apart { result ≡ false → (g : ℕ) → may_have_glyph SHIFT self.now.mask g ≡ true
            → may_have_glyph SHIFT other.now.mask g ≡ false }
        ensures exact { ((g : ℕ) → may_have_glyph SHIFT self.now.mask g ≡ true
            → may_have_glyph SHIFT other.now.mask g ≡ false) → result ≡ false }
    {
        self.mask & other.mask != 0
    }
}
