// The values of nets.
ghost use Rattle.std.specs.Prelude.{◌≡◌, ◌+◌, ◌<◌, ℕ, false, Some, length, map, slice_get};
ghost use Rattle.std.specs.Prelude.{slice_index_or, All};
ghost use Rattle.std.specs.List.{list_any};
ghost use Rattle.lw_laws.specs.Networks.{row_value, node_value};
ghost use Rattle.lw_net.specs.Networks.{IsNodeAt};
ghost use Rattle.lw_net.specs.Plain.{plain_node};
ghost use Rattle.lw_net.specs.Signs.{asked, met_by};
ghost use Rattle.lw_pool.specs.Numbers.{values_at};

use crate::{Cube, Node};
use lw_pool::NetId;

// Whether a column with this sign is met by this value.
fn is_met(sign: u8, value: bool) -> bool
    ensures { result ≡ met_by sign value }
{
    match sign {
        b'1' => value,
        b'0' => !value,
        _ => true,
    }
}

// Whether a row holds at these values of all nets.
fn row_holds(row: &[u8], fanins: &[NetId], nets: &[bool]) -> bool
    requires columns { length row.now ≡ length fanins.now }
    requires known { All (λ net. net.0 < length nets.now) fanins.now }
    ensures { result ≡ row_value (values_at nets.now fanins.now) (map asked row.now) }
{
    for (i, sign) in row.iter().enumerate() {
        if !is_met(*sign, nets[fanins[i].0 as usize]) {
            return false;
        }
    }
    true
}

// Whether some row holds.
fn some_row_holds(rows: &[Cube], fanins: &[NetId], nets: &[bool]) -> bool
    requires columns { All (λ row. length row ≡ length fanins.now) rows.now }
    requires known { All (λ net. net.0 < length nets.now) fanins.now }
    ensures { result ≡ list_any (row_value (values_at nets.now fanins.now))
        (map (map asked) rows.now) }
{
    for row in rows {
        if row_holds(row.as_slice(), fanins, nets) {
            return true;
        }
    }
    false
}

// What the rows of a node give.
fn value_of(node: &Node, nets: &[bool]) -> bool
    requires columns { All (λ row. length row ≡ length node.now.fanins) node.now.rows }
    requires known { All (λ net. net.0 < length nets.now) node.now.fanins }
    ensures { result ≡ node_value nets.now (plain_node node.now) }
{
    let some = some_row_holds(node.rows.as_slice(), node.fanins.as_slice(), nets);
    if node.on { some } else { !some }
}

// Fills in the nets that the nodes drive, which are those from `first` on.
pub(crate) fn fill(nodes: &[Node], first: usize, nets: &mut [bool])
    requires nodes { (j : ℕ) (node : _) → slice_get nodes.now j ≡ Some node →
        IsNodeAt first j node }
    requires one_each { length nets.old ≡ first + length nodes.now }
    ensures inputs { (i : ℕ) → i < first →
        slice_index_or nets.new i false ≡ slice_index_or nets.old i false }
    ensures values { (j : ℕ) (node : _) → slice_get nodes.now j ≡ Some node →
        slice_index_or nets.new (first + j) false ≡ node_value nets.new (plain_node node) }
{
    for (j, node) in nodes.iter().enumerate() {
        nets[first + j] = value_of(node, nets);
    }
}
