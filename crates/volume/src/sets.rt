//! Sets of nodes and tables by node, as arrays of 15, so that no step lacks memory for them. A node that the volume lacks has no entry.
ghost use Rattle.std.specs.Prelude.{◌≡◌, ◌≤◌, true, false, slice_set};
ghost use Rattle.volume.specs.Sets.{is_marked, birth_at, count_marked, count_at_least, marks_of};

/// The most nodes of a volume.
pub const MAX_NODES: usize = 15;

/// Whether the set has the node.
pub(crate) fn has(set: &[bool; 15], node: u8) -> bool
    ensures { result ≡ is_marked set.now node }
{
    let place = usize::from(node);
    if place < set.len() { set[place] } else { false }
}

/// The set with the node.
pub(crate) fn mark(set: &mut [bool; 15], node: u8)
    ensures { set.new ≡ slice_set set.old node true }
{
    let place = usize::from(node);
    if place < set.len() {
        set[place] = true;
    }
}

/// The set without the node.
pub(crate) fn unmark(set: &mut [bool; 15], node: u8)
    ensures { set.new ≡ slice_set set.old node false }
{
    let place = usize::from(node);
    if place < set.len() {
        set[place] = false;
    }
}

/// How many nodes the set has.
pub(crate) fn count(set: &[bool; 15]) -> u8
    ensures value { result ≡ count_marked set.now }
    ensures most { result ≤ 15 }
{
    let mut found = 0;
    for is_in in set {
        if *is_in {
            found += 1;
        }
    }
    found
}

/// The entry of a node.
pub(crate) fn entry_of(table: &[Option<u64>; 15], node: u8) -> Option<u64>
    ensures { result ≡ birth_at table.now node }
{
    let place = usize::from(node);
    if place < table.len() {
        table[place]
    } else {
        None
    }
}

/// The table with another entry of a node.
pub(crate) fn put_entry(table: &mut [Option<u64>; 15], node: u8, entry: Option<u64>)
    ensures { table.new ≡ slice_set table.old node entry }
{
    let place = usize::from(node);
    if place < table.len() {
        table[place] = entry;
    }
}

/// The nodes with an entry.
pub(crate) fn nodes_with_entry(table: &[Option<u64>; 15]) -> [bool; 15]
    ensures { result ≡ marks_of table.now }
{
    let mut set = [false; 15];
    for (place, entry) in table.iter().enumerate() {
        set[place] = entry.is_some();
    }
    set
}

/// How many nodes have come up to a point.
pub(crate) fn count_up_to(points: &[u64; 15], point: u64) -> u8
    ensures value { result ≡ count_at_least point points.now }
    ensures most { result ≤ 15 }
{
    let mut found = 0;
    for reached in points {
        if point <= *reached {
            found += 1;
        }
    }
    found
}
