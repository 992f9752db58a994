// The forms of the nets of a network, and the list of what occurs in them.
ghost use Rattle.std.specs.Prelude.{◌≡◌, ◌<◌, ◌≤◌, ◌++◌, [], ◌∷◌, List, map, length, All, IfOk};
ghost use Rattle.std.specs.Prelude.{IfErr, OnOk, slice_index_or};
ghost use Rattle.lw_pool.specs.Numbers.{most_signals, net_number};
ghost use Rattle.lw_net.specs.Plain.{plain, plain_node};
ghost use Rattle.lw_net.specs.Signs.{asked};
ghost use Rattle.lw_laws.specs.Forms.Form.{true_form};
ghost use Rattle.lw_laws.specs.Mapped.{forms_of};
ghost use Rattle.lw_laws.specs.Occurring.{add_signals, appended, occurring_forms};
ghost use Rattle.lw_laws.specs.Signals.{Signal, signal_of_node, signals_after, input_signals};
ghost use Rattle.lw_laws.specs.Signals.{signals_of};
ghost use Rattle.lw_form.specs.Limits.{most_operands};
ghost use Rattle.lw_form.specs.Listed.{base_at, HasListed, IsTooLong};
ghost use Rattle.lw_form.specs.Nets.{signal_at, AddsSignals, AreBothForms, CanAddNet, CanAddNode};
ghost use Rattle.lw_form.specs.Nets.{CanAddNodes, HasNoNets, HasSignals, IsSignalFault};
ghost use Rattle.lw_form.specs.Products.{AreRowsOver};
ghost use Rattle.lw_form.specs.Tables.{made};

use crate::factoring::have_shared;
use crate::listing::{Listing, Step};
use crate::maker::{Fanins, Maker};
use crate::products::signed;
use crate::renumbering::{numbered_bases, renumbered_all};
use crate::row::Row;
use crate::sampling::samples;
use crate::table::FormTable;
use crate::{FormFault, Forms};
use lw_net::{Cube, Network, Node};
use lw_pool::NetId;
use smallvec::SmallVec;
use std::alloc::{AllocError, Global};

// The forms that were made, those that are listed, and the two forms of each net.
#[derive(Drop)]
pub(crate) struct Occurring {
    pub(crate) table: FormTable,
    pub(crate) listing: Listing,
    steps: Vec<Step>,
    pub(crate) sops: Vec<u32>,
    pub(crate) facs: Vec<u32>,
}

// Notes a form.
fn note(forms: &mut Vec<u32>, form: u32) -> Result<(), AllocError>
    ensures { OnOk result (forms.new.items ≡ forms.old.items ++ form ∷ []) }
{
    forms.push(form)?;
    Ok(())
}

// The sums of products of some nets.
fn fanins_of(alloc: Global, sops: &[u32], nets: &[NetId]) -> Result<SmallVec<u32, 8>, AllocError>
    requires { All (λ net. net.0 < length sops.now) nets.now }
    ensures { IfOk result (λ fanins. fanins.items
        ≡ map (λ net. slice_index_or sops.now net 0) (map net_number nets.now)) }
{
    let mut fanins = SmallVec::new(alloc);
    for net in nets {
        fanins.push(sops[net.0 as usize])?;
    }
    Ok(fanins)
}

// The rows of a node.
fn rows_of(alloc: Global, cubes: &[Cube]) -> Result<Vec<Row>, AllocError>
    ensures { IfOk result (λ rows. rows.items ≡ map (map asked) cubes.now) }
{
    let mut rows = Vec::with_capacity(alloc, cubes.len())?;
    for cube in cubes {
        rows.push(Row::of_signs(alloc, cube.as_slice())?)?;
    }
    Ok(rows)
}

impl<'a> Fanins<'a> {
    // The two forms of some rows: the sum of products, and the factored form.
    fn both_forms(&self, table: &mut FormTable, cubes: &[Cube]) -> Result<(u32, u32), AllocError>
        requires { AreRowsOver self.now table.old (map (map asked) cubes.now) }
        ensures { IfOk result (λ forms. AreBothForms self.now table.old table.new
            (map (map asked) cubes.now) forms.0 forms.1) }
    {
        if cubes.len() == 1 {
            let form = self.product(table, cubes[0].as_slice())?;
            let _count = table.len();
            return Ok((form, form));
        }
        let rows = rows_of(self.maker.alloc, cubes)?;
        let sop = self.sum_of_products(table, &rows)?;
        if !have_shared(&rows, self.forms.len()) {
            return Ok((sop, sop));
        }
        let fac = self.factored(table, rows)?;
        Ok((sop, fac))
    }
}

// The list of true alone, with room for so many base forms.
fn true_alone(alloc: Global, table: &FormTable, bases: usize) -> Result<Listing, FormFault>
    requires { 0 < length (made table.now) }
    ensures listed { IfOk result (λ listing. HasListed (made table.now) listing
        (appended (base_at (made table.now) 0) [])) }
    ensures fault { IfErr result (IsTooLong (appended (base_at (made table.now) 0) [])) }
{
    let mut listing = Listing::with_capacity(alloc, bases)?;
    listing.list(table, 0)?;
    Ok(listing)
}

// No forms, twice, with room for those of so many nets.
fn no_nets(alloc: Global, nets: usize) -> Result<(Vec<u32>, Vec<u32>), AllocError>
    ensures { IfOk result (λ forms. (forms.0.items ≡ []) × (forms.1.items ≡ [])) }
{
    let sops = Vec::with_capacity(alloc, nets)?;
    let facs = Vec::with_capacity(alloc, nets)?;
    Ok((sops, facs))
}

impl Occurring {
    // Adds a net with its two forms.
    fn add_net(&mut self, alloc: Global, sop: u32, fac: u32) -> Result<(), FormFault>
        requires { CanAddNet self.old sop fac }
        ensures adds { OnOk result (AddsSignals self.old self.new
            (λ signals. signals ++ signal_at (made self.old.table) sop fac ∷ [])) }
        ensures fault { IfErr result (IsSignalFault self.old
            (λ signals. signals ++ signal_at (made self.old.table) sop fac ∷ [])) }
    {
        self.listing
            .add(alloc, &mut self.table, &mut self.steps, sop)?;
        self.listing
            .add(alloc, &mut self.table, &mut self.steps, fac)?;
        note(&mut self.sops, sop)?;
        note(&mut self.facs, fac)?;
        Ok(())
    }

    // Adds a node's net, whose forms are made of those of its fan-ins.
    fn add_node(&mut self, maker: &Maker, node: &Node) -> Result<(), FormFault>
        requires { CanAddNode self.old node.now }
        ensures adds { OnOk result (AddsSignals self.old self.new (λ signals.
            signals ++ signal_of_node maker.now.width signals (plain_node node.now) ∷ [])) }
        ensures fault { IfErr result (IsSignalFault self.old (λ signals.
            signals ++ signal_of_node maker.now.width signals (plain_node node.now) ∷ [])) }
    {
        let forms = &fanins_of(maker.alloc, &self.sops, node.fanins.as_slice())?;
        let fanins = Fanins { maker, forms };
        let (sop, fac) = fanins.both_forms(&mut self.table, node.rows.as_slice())?;
        let _count = self.table.len();
        self.add_net(maker.alloc, signed(sop, node.on), signed(fac, node.on))
    }

    // Lists true alone, with room for so many nets.
    fn start(alloc: Global, inputs: u32, nets: usize) -> Result<Self, FormFault>
        requires { inputs ≤ most_signals }
        ensures none { IfOk result (HasNoNets inputs) }
        ensures fault { IfErr result (IsTooLong (true_form ∷ [])) }
    {
        let table = FormTable::with_capacity(alloc, inputs, nets)?;
        let listing = match true_alone(alloc, &table, nets) {
            Ok(listing) => listing,
            Err(fault) => {
                drop(table);
                return Err(fault);
            }
        };
        let Ok((sops, facs)) = no_nets(alloc, nets) else {
            drop(listing);
            drop(table);
            return Err(FormFault::Memory);
        };
        Ok(Occurring {
            table,
            listing,
            steps: Vec::new(alloc),
            sops,
            facs,
        })
    }

    // Adds the inputs.
    fn add_inputs(&mut self, alloc: Global, inputs: u32) -> Result<(), FormFault>
        requires { HasNoNets inputs self.old }
        ensures listed { OnOk result (HasSignals self.new (input_signals 0 inputs)) }
        ensures fault { IfErr result (IsTooLong
            (add_signals (input_signals 0 inputs) (true_form ∷ []))) }
    {
        for input in 0..inputs {
            let form = 2 * (input + 1);
            self.add_net(alloc, form, form)?;
        }
        Ok(())
    }

    // Adds the nodes' nets.
    fn add_nodes(&mut self, maker: &Maker, nodes: &[Node]) -> Result<(), FormFault>
        requires { CanAddNodes self.old nodes.now }
        ensures listed { OnOk result ((signals : List Signal) → HasSignals self.old signals →
            HasSignals self.new
            (signals_after maker.now.width signals (map plain_node nodes.now))) }
        ensures fault { IfErr result (IsSignalFault self.old
            (λ signals. signals_after maker.now.width signals (map plain_node nodes.now))) }
    {
        for node in nodes {
            self.add_node(maker, node)?;
        }
        Ok(())
    }

    // The forms of the nets of a network, and the list of what occurs in them.
    pub(crate) fn of_network(maker: &Maker, net: &Network) -> Result<Self, FormFault>
        ensures listed { IfOk result (λ all.
            HasSignals all (signals_of maker.now.width (plain net.now))) }
        ensures fault { IfErr result (IsTooLong
            (occurring_forms maker.now.width (plain net.now))) }
    {
        let inputs = net.inputs();
        let mut all = Occurring::start(maker.alloc, inputs, net.nets() as usize)?;
        if let Err(fault) = all.add_inputs(maker.alloc, inputs) {
            drop(all);
            return Err(fault);
        }
        if let Err(fault) = all.add_nodes(maker, net.nodes()) {
            drop(all);
            return Err(fault);
        }
        Ok(all)
    }
}

// The list of what occurs in a network, over the numbers of forms in the list.
fn finished(maker: &Maker, net: &Network, all: &Occurring) -> Result<Forms, AllocError>
    requires { HasSignals all.now (signals_of maker.now.width (plain net.now)) }
    ensures { IfOk result (λ forms. forms ≡ forms_of maker.now.width (plain net.now)) }
{
    let alloc = maker.alloc;
    let _count = all.table.len();
    let inputs = net.inputs();
    let sops = renumbered_all(alloc, &all.listing, &all.sops)?;
    let facs = renumbered_all(alloc, &all.listing, &all.facs)?;
    let bases = numbered_bases(alloc, &all.table, &all.listing)?;
    let Ok(samples) = samples(alloc, bases.as_slice()) else {
        drop(bases);
        return Err(AllocError);
    };
    Ok(Forms::new(inputs, bases, sops, facs, samples))
}

/// The list of the base forms that occur in the forms of a network's nets, where an And has at most
/// `width` operands.
///
/// The sum of products of a node is the Or of the Ands of its rows' literals, in order, and its
/// factored form takes out the literal that stands in most rows, as long as one stands in two. True
/// is listed first, then the inputs, and then, by nets, what the two forms are made of: an And's
/// operands, and the Ands of its parts by rising mask. `Limit` comes exactly where more than
/// 2,097,152 base forms occur. `Memory` is the one free answer.
pub fn forms(alloc: Global, net: &Network, width: u8) -> Result<Forms, FormFault>
    requires low { 2 ≤ width }
    requires high { width ≤ most_operands }
    ensures listed { IfOk result (λ forms. forms ≡ forms_of width (plain net.now)) }
    ensures fault { IfErr result (IsTooLong (occurring_forms width (plain net.now))) }
{
    let width = width as usize;
    let maker = Maker { alloc, width };
    let all = Occurring::of_network(&maker, net)?;
    let forms = finished(&maker, net, &all);
    drop(all);
    Ok(forms?)
}
