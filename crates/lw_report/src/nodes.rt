// The values of the nets of a network, 64 vectors at a time.
ghost use Rattle.std.specs.Prelude.{◌≡◌, ◌+◌, ◌<◌, ℕ, Some, length, map, slice_get, All};
ghost use Rattle.std.specs.List.{list_any};
ghost use Rattle.lw_laws.specs.Networks.{row_value, node_value};
ghost use Rattle.lw_net.specs.Networks.{IsNodeAt};
ghost use Rattle.lw_net.specs.Plain.{plain_node};
ghost use Rattle.lw_net.specs.Signs.{asked, met_by};
ghost use Rattle.lw_genlib.specs.Words.{bit};
ghost use Rattle.lw_report.specs.Blocks.{bits_at};
ghost use Rattle.lw_report.specs.Reading.{FillsNets};
ghost use Rattle.lw_pool.specs.Numbers.{values_at};

use lw_net::{Cube, Node};
use lw_pool::NetId;

// The vectors at which a column with this sign is met.
fn met(sign: u8, values: u64) -> u64
    ensures { (k : ℕ) → k < 64 → bit k result ≡ met_by sign (bit k values) }
{
    match sign {
        b'1' => values,
        b'0' => !values,
        _ => u64::MAX,
    }
}

// The vectors at which a row holds.
fn row_word(row: &[u8], fanins: &[NetId], nets: &[u64]) -> u64
    requires columns { length row.now ≡ length fanins.now }
    requires known { All (λ net. net.0 < length nets.now) fanins.now }
    ensures { (k : ℕ) → k < 64 → bit k result
        ≡ row_value (values_at (bits_at k nets.now) fanins.now) (map asked row.now) }
{
    let mut all = u64::MAX;
    for (i, sign) in row.iter().enumerate() {
        all &= met(*sign, nets[fanins[i].0 as usize]);
    }
    all
}

// The vectors at which some row holds.
fn some_row_word(rows: &[Cube], fanins: &[NetId], nets: &[u64]) -> u64
    requires columns { All (λ row. length row ≡ length fanins.now) rows.now }
    requires known { All (λ net. net.0 < length nets.now) fanins.now }
    ensures { (k : ℕ) → k < 64 → bit k result
        ≡ list_any (row_value (values_at (bits_at k nets.now) fanins.now))
        (map (map asked) rows.now) }
{
    let mut some = 0;
    for row in rows {
        some |= row_word(row.as_slice(), fanins, nets);
    }
    some
}

// What the rows of a node give.
fn node_word(node: &Node, nets: &[u64]) -> u64
    requires columns { All (λ row. length row ≡ length node.now.fanins) node.now.rows }
    requires known { All (λ net. net.0 < length nets.now) node.now.fanins }
    ensures { (k : ℕ) → k < 64 → bit k result
        ≡ node_value (bits_at k nets.now) (plain_node node.now) }
{
    let some = some_row_word(node.rows.as_slice(), node.fanins.as_slice(), nets);
    if node.on { some } else { !some }
}

// Fills in the nets that the nodes drive, which are those from `first` on.
pub(crate) fn fill_nodes(nodes: &[Node], first: usize, nets: &mut [u64])
    requires nodes { (j : ℕ) (node : _) → slice_get nodes.now j ≡ Some node →
        IsNodeAt first j node }
    requires one_each { length nets.old ≡ first + length nodes.now }
    ensures { FillsNets (λ values node. node_value values (plain_node node)) nodes.now first
        nets.old nets.new }
{
    for (j, node) in nodes.iter().enumerate() {
        nets[first + j] = node_word(node, nets);
    }
}
