//! Links from positions to others, as differences of indices.
ghost use Rattle.std.specs.Prelude.{◌≡◌, true};
ghost use Rattle.layout_offsets.specs.Links.{is_near, link_to, link_target};

/// The index that a link of a position leads to, among `count`: none where the link is 0 or leads outside.
pub fn linked(count: usize, at: usize, link: i16) -> Option<usize>
    ensures { result ≡ link_target count at link }
{
    if link == 0 {
        return None;
    }
    let there = at.checked_add_signed(isize::from(link))?;
    if there < count { Some(there) } else { None }
}

/// Whether a link may lead from one index to the other: over at most 32,767 glyphs.
pub fn is_near(child: usize, parent: usize) -> bool
    ensures { result ≡ is_near child parent }
{
    child.saturating_sub(parent) <= 32767 && parent.saturating_sub(child) <= 32767
}

/// The link from an index to another one that is near enough.
pub fn link_to(child: usize, parent: usize) -> i16
    requires near { is_near child parent ≡ true }
    ensures { result ≡ link_to child parent }
{
    if parent < child {
        let back = child - parent;
        -(back as i16)
    } else {
        let on = parent - child;
        on as i16
    }
}
