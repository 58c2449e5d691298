//! What a buffer knows of the order of its clusters, so that merges need not walk the list (of this project).
ghost use Rattle.std.specs.Prelude.{◌≡◌, false};
ghost use Rattle.buffer_glyphs.specs.Items.{clusters};
ghost use Rattle.buffer_lists.specs.Known.{HasOrder};
ghost use Rattle.buffer_core.specs.Sides.{all_glyphs};

use super::hb_buffer_t;
use buffer_glyphs::level::BufferClusterLevel;
use buffer_lists::order::{ClusterOrder, KnownOrder};

impl hb_buffer_t {
    /// What is known of the order of clusters after a walk of the list where it was not known.
    pub(super) fn walked_order(&mut self) -> KnownOrder
        requires { self.old.is_open ≡ false }
        ensures same { self.new ≡ self.old }
        ensures order { HasOrder result (clusters (all_glyphs self.old)) }
    {
        self.order.settle(&self.info);
        let known = self.order.known.walked(&[], &self.info);
        self.order.known = known;
        known
    }

    /// What is known of the order of clusters before merges: where these renumber none the list is not walked for it.
    pub(super) fn order_before_merges(&mut self) -> KnownOrder
        requires { self.old.is_open ≡ false }
        ensures same { self.new ≡ self.old }
        ensures order { HasOrder result (clusters (all_glyphs self.old)) }
    {
        match self.cluster_level {
            BufferClusterLevel::Characters | BufferClusterLevel::Graphemes => self.known_order(),
            BufferClusterLevel::MonotoneGraphemes | BufferClusterLevel::MonotoneCharacters => {
                self.walked_order()
            }
        }
    }

    /// Learns whether the clusters stand in order, where that is not known, so that ranges of one cluster are marked
    /// without a walk. It takes linear time, and changes nothing that is seen.
    pub fn learn_order(&mut self)
        requires { self.old.is_open ≡ false }
        ensures { self.new ≡ self.old }
    {
        self.walked_order();
    }

    /// What is known of the order of the clusters of all glyphs, without a walk; a caller that writes glyphs passes it
    /// to `keep_order` where it still holds.
    pub fn known_order(&mut self) -> KnownOrder
        ensures same { self.new ≡ self.old }
        ensures order { HasOrder result (clusters (all_glyphs self.old)) }
    {
        self.order.settle(&self.info);
        self.order.known
    }

    /// Records that the clusters of all glyphs have an order: ranges of them merge without a walk over the rest. It
    /// changes nothing that is seen.
    pub fn keep_order(&mut self, known: KnownOrder)
        requires { HasOrder known (clusters (all_glyphs self.old)) }
        ensures { self.new ≡ self.old }
    {
        self.order = ClusterOrder::of(known);
    }
}
