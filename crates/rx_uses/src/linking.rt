//! Links between nodes, by index.
ghost use Rattle.std.specs.Prelude.{◌≡◌, ℕ, ◌<◌, length, slice_index, slice_set};
ghost use Rattle.rx_uses.specs.Links.{link_of, heads_without, AreLists, places_from};

/// A link to no node.
pub(crate) const NONE: u32 = u32::MAX;

/// The node of a link.
pub(crate) fn linked(link: u32) -> Option<u32>
    ensures { result ≡ link_of link }
{
    if link == NONE { None } else { Some(link) }
}

/// Sets the link of a node; of no node there is none to set.
pub(crate) fn set_link(links: &mut [u32], node: u32, link: u32)
    ensures { links.new ≡ slice_set links.old node link }
{
    if (node as usize) < links.len() {
        links[node as usize] = link;
    }
}

/// Puts a node before the list of a cell.
pub(crate) fn put_first(
    heads: &mut [u32],
    nexts: &mut [u32],
    prevs: &mut [u32],
    node: u32,
    cell: u32,
)
    requires cell { cell < length heads.old }
    requires next { node < length nexts.old }
    requires previous { node < length prevs.old }
    ensures heads { heads.new ≡ slice_set heads.old cell node }
    ensures nexts { nexts.new ≡ slice_set nexts.old node (slice_index heads.old cell) }
    ensures prevs { prevs.new ≡
        slice_set (slice_set prevs.old node 4294967295) (slice_index heads.old cell) node }
{
    let next = heads[cell as usize];
    nexts[node as usize] = next;
    prevs[node as usize] = NONE;
    set_link(prevs, next, node);
    heads[cell as usize] = node;
}

/// Takes a node out of the list of its cell.
pub(crate) fn take_out(
    heads: &mut [u32],
    nexts: &mut [u32],
    prevs: &mut [u32],
    homes: &[u32],
    node: u32,
)
    requires next { node < length nexts.old }
    requires previous { node < length prevs.old }
    requires home { node < length homes.now }
    ensures heads { heads.new ≡
        heads_without nexts.old prevs.old homes.now heads.old node }
    ensures nexts { nexts.new ≡
        slice_set nexts.old (slice_index prevs.old node) (slice_index nexts.old node) }
    ensures prevs { prevs.new ≡
        slice_set prevs.old (slice_index nexts.old node) (slice_index prevs.old node) }
{
    let next = nexts[node as usize];
    let previous = prevs[node as usize];
    if previous == NONE {
        set_link(heads, homes[node as usize], next);
    }
    set_link(nexts, previous, next);
    set_link(prevs, next, previous);
}

/// Links the nodes that name each cell, in order: from the last node to the first, each is put before the list of its
/// cell. At first no cell has a list.
pub(crate) fn link_all(heads: &mut [u32], nexts: &mut [u32], prevs: &mut [u32], named: &[u32])
    requires next { length nexts.old ≡ length named.now }
    requires previous { length prevs.old ≡ length named.now }
    requires small { length named.now < 4294967295 }
    requires cells { (t : ℕ) → t < length named.now → slice_index named.now t < length heads.old }
    requires none { (c : ℕ) → c < length heads.old → slice_index heads.old c ≡ 4294967295 }
    ensures { AreLists nexts.new prevs.new named.now heads.new (places_from 0 named.now) }
{
    for back in 0..named.len() {
        let node = named.len() - 1 - back;
        put_first(heads, nexts, prevs, node as u32, named[node]);
    }
}
