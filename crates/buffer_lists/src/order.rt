//! What is known of the order of clusters, so that merges need not walk the lists (of this project).
ghost use Rattle.std.specs.Prelude.{◌≡◌, ◌++◌, ◌∷◌, [], ℕ, Bool, List, None, Some, true, slice_set, reverse, take, drop, IfSome};
ghost use Rattle.buffer_glyphs.specs.Items.{clusters};
ghost use Rattle.buffer_glyphs.specs.Order.{IsFalling, IsInOrder, IsRising};
ghost use Rattle.buffer_lists.specs.Known.{HasOrder, IsFallingTo, IsRisingTo, is_known, known_clusters};

use buffer_glyphs::info::hb_glyph_info_t;
use buffer_glyphs::level::BufferClusterLevel;

/// What is known of the order of the clusters of all glyphs. It only saves time: a merge that knows nothing walks the
/// lists.
#[derive(Clone, Copy)]
pub enum KnownOrder {
    Unknown,
    /// They never decrease.
    Rising,
    /// They never increase.
    Falling,
}

/// A glyph that was lent to be written.
#[derive(Clone, Copy)]
pub struct Lent {
    /// Its index in the list.
    pub at: usize,
    /// The cluster that it had.
    pub cluster: u32,
}

/// What a buffer knows of the order of its clusters. A glyph that it lent counts by the cluster that it had.
#[derive(Clone, Copy)]
pub struct ClusterOrder {
    pub known: KnownOrder,
    pub lent: Option<Lent>,
}

impl ClusterOrder {
    /// What is known where no glyph is lent.
    pub fn of(known: KnownOrder) -> ClusterOrder
        ensures known { result.known ≡ known }
        ensures lent { result.lent ≡ None }
    {
        ClusterOrder { known, lent: None }
    }

    /// Settles what is known once a lent glyph is back: where it is in another cluster, nothing is known.
    pub fn settle(&mut self, glyphs: &[hb_glyph_info_t])
        ensures order { (m n : ℕ) →
            HasOrder self.old.known
            (take m (known_clusters self.old.lent (clusters glyphs.now))
            ++ drop n (known_clusters self.old.lent (clusters glyphs.now))) →
            HasOrder self.new.known (take m (clusters glyphs.now) ++ drop n (clusters glyphs.now)) }
        ensures back { self.new.lent ≡ None }
    {
        // Where no glyph was lent, which is so at most calls, nothing is written.
        if self.lent.is_none() {
            return;
        }
        let known = self.known.after_loan(self.lent, glyphs);
        *self = ClusterOrder::of(known);
    }
}

impl Lent {
    /// Whether the glyph is of the cluster that it had.
    fn is_as_it_was(self, glyphs: &[hb_glyph_info_t]) -> bool
        ensures { result ≡ true → known_clusters (Some self) (clusters glyphs.now) ≡ clusters glyphs.now }
    {
        has_cluster(glyphs, self.at, self.cluster)
    }
}

/// Whether there is a glyph at an index, and it is of the cluster.
#[tactic(auto, using(crate::proofs::Known::back_in_place))]
fn has_cluster(glyphs: &[hb_glyph_info_t], at: usize, cluster: u32) -> bool
    ensures { result ≡ true → slice_set (clusters glyphs.now) at cluster ≡ clusters glyphs.now }
{
    at < glyphs.len() && glyphs[at].cluster == cluster
}

impl KnownOrder {
    /// Whether an order is known.
    pub fn is_known(self) -> bool
        ensures { result ≡ is_known self }
    {
        match self {
            KnownOrder::Unknown => false,
            KnownOrder::Rising | KnownOrder::Falling => true,
        }
    }

    fn after_loan(self, lent: Option<Lent>, glyphs: &[hb_glyph_info_t]) -> KnownOrder
        ensures { (m n : ℕ) → HasOrder self
            (take m (known_clusters lent (clusters glyphs.now)) ++ drop n (known_clusters lent (clusters glyphs.now))) →
            HasOrder result (take m (clusters glyphs.now) ++ drop n (clusters glyphs.now)) }
    {
        match lent {
            Some(lent) if !lent.is_as_it_was(glyphs) => KnownOrder::Unknown,
            _ => self,
        }
    }

    /// What is known with a glyph of the cluster appended.
    pub fn with_last(self, glyphs: &[hb_glyph_info_t], cluster: u32) -> KnownOrder
        ensures { HasOrder self (clusters glyphs.now) → HasOrder result (clusters glyphs.now ++ cluster ∷ []) }
    {
        if self.holds_after(glyphs, cluster) {
            self
        } else {
            KnownOrder::Unknown
        }
    }

    /// What is known with a glyph of the cluster between two lists.
    pub fn with_between(
        self,
        output: &[hb_glyph_info_t],
        cluster: u32,
        input: &[hb_glyph_info_t],
    ) -> KnownOrder
        ensures { HasOrder self (clusters output.now ++ clusters input.now) →
            HasOrder result (clusters output.now ++ cluster ∷ clusters input.now) }
    {
        if self.holds_after(output, cluster) && self.holds_before(cluster, input) {
            self
        } else {
            KnownOrder::Unknown
        }
    }

    /// Whether the order still holds with a glyph of the cluster after the others.
    #[tactic(auto, using(crate::proofs::Known::known_last_alone))]
    fn holds_after(self, glyphs: &[hb_glyph_info_t], cluster: u32) -> bool
        ensures { result ≡ true → HasOrder self (clusters glyphs.now) →
            HasOrder self (clusters glyphs.now ++ cluster ∷ []) }
    {
        match (self, glyphs) {
            (KnownOrder::Unknown, _) | (_, []) => true,
            (KnownOrder::Rising, [.., last]) => last.cluster <= cluster,
            (KnownOrder::Falling, [.., last]) => cluster <= last.cluster,
        }
    }

    /// Whether the order still holds with a glyph of the cluster before the others.
    #[tactic(auto, using(crate::proofs::Known::known_first_alone))]
    fn holds_before(self, cluster: u32, glyphs: &[hb_glyph_info_t]) -> bool
        ensures { result ≡ true → HasOrder self (clusters glyphs.now) → HasOrder self (cluster ∷ clusters glyphs.now) }
    {
        match (self, glyphs) {
            (KnownOrder::Unknown, _) | (_, []) => true,
            (KnownOrder::Rising, [first, ..]) => cluster <= first.cluster,
            (KnownOrder::Falling, [first, ..]) => first.cluster <= cluster,
        }
    }

    /// What is known of the reversed list.
    #[tactic(auto, using(crate::proofs::Known::falls_turned, crate::proofs::Known::rises_turned))]
    pub fn reversed(self) -> KnownOrder
        ensures { (ns : List ℕ) → HasOrder self ns → HasOrder result (reverse ns) }
    {
        match self {
            KnownOrder::Unknown => KnownOrder::Unknown,
            KnownOrder::Rising => KnownOrder::Falling,
            KnownOrder::Falling => KnownOrder::Rising,
        }
    }

    /// What is known of other clusters that are in order where these are, if `kept` is set.
    pub fn if_kept(self, kept: bool) -> KnownOrder
        ensures { (old new : List ℕ) → ((falls : Bool) → kept ≡ true → IsInOrder falls old → IsInOrder falls new) →
            HasOrder self old → HasOrder result new }
    {
        if kept { self } else { KnownOrder::Unknown }
    }

    /// What is known once two lists whose order was not known have been walked.
    pub fn walked(self, output: &[hb_glyph_info_t], input: &[hb_glyph_info_t]) -> KnownOrder
        ensures { HasOrder self (clusters output.now ++ clusters input.now) →
            HasOrder result (clusters output.now ++ clusters input.now) }
    {
        match self {
            KnownOrder::Unknown => order_of(output, input),
            KnownOrder::Rising | KnownOrder::Falling => self,
        }
    }

    /// What is known where a range of two lists is merged, before it or after it. At a level that keeps no order the
    /// lists are not walked.
    pub fn merged(
        self,
        level: BufferClusterLevel,
        output: &[hb_glyph_info_t],
        input: &[hb_glyph_info_t],
    ) -> KnownOrder
        ensures { HasOrder self (clusters output.now ++ clusters input.now) →
            HasOrder result (clusters output.now ++ clusters input.now) }
    {
        match level {
            BufferClusterLevel::Characters | BufferClusterLevel::Graphemes => self,
            BufferClusterLevel::MonotoneGraphemes | BufferClusterLevel::MonotoneCharacters => {
                self.walked(output, input)
            }
        }
    }
}

/// The order that a walk of the clusters of two lists finds.
fn order_of(output: &[hb_glyph_info_t], input: &[hb_glyph_info_t]) -> KnownOrder
    ensures { HasOrder result (clusters output.now ++ clusters input.now) }
{
    if both_rise(output, input) {
        KnownOrder::Rising
    } else if both_fall(output, input) {
        KnownOrder::Falling
    } else {
        KnownOrder::Unknown
    }
}

/// Whether the clusters of two lists, one after the other, never decrease.
#[tactic(auto, using(crate::proofs::Known::rises_on))]
fn both_rise(output: &[hb_glyph_info_t], input: &[hb_glyph_info_t]) -> bool
    ensures { result ≡ true → IsRising (clusters output.now ++ clusters input.now) }
{
    match rising_end(0, output) {
        None => false,
        Some(last) => match rising_end(last, input) {
            None => false,
            Some(_) => true,
        },
    }
}

/// Whether the clusters of two lists, one after the other, never increase.
#[tactic(auto, using(crate::proofs::Falling::falls_on))]
fn both_fall(output: &[hb_glyph_info_t], input: &[hb_glyph_info_t]) -> bool
    ensures { result ≡ true → IsFalling (clusters output.now ++ clusters input.now) }
{
    match falling_end(u32::MAX, output) {
        None => false,
        Some(last) => match falling_end(last, input) {
            None => false,
            Some(_) => true,
        },
    }
}

/// The last cluster, or `start` where there is none, if `start` and the clusters never decrease.
#[tactic(auto, using(crate::proofs::Known::rising_to_next))]
fn rising_end(start: u32, glyphs: &[hb_glyph_info_t]) -> Option<u32>
    ensures { IfSome result (λ n. IsRisingTo start (clusters glyphs.now) n) }
{
    let mut last = start;
    for glyph in glyphs {
        if glyph.cluster < last {
            return None;
        }
        last = glyph.cluster;
    }
    Some(last)
}

/// The last cluster, or `start` where there is none, if `start` and the clusters never increase.
#[tactic(auto, using(crate::proofs::Falling::falling_to_next))]
fn falling_end(start: u32, glyphs: &[hb_glyph_info_t]) -> Option<u32>
    ensures { IfSome result (λ n. IsFallingTo start (clusters glyphs.now) n) }
{
    let mut last = start;
    for glyph in glyphs {
        if glyph.cluster > last {
            return None;
        }
        last = glyph.cluster;
    }
    Some(last)
}
