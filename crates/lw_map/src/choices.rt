// The graph of a network's forms.
ghost use Rattle.std.specs.Prelude.{◌≡◌, ◌<◌, All, IfOk, IfErr, length, map};
ghost use Rattle.lw_pool.specs.declared.id.ClassId.{ClassId};
ghost use Rattle.lw_map.specs.Options.{plain_options};
ghost use Rattle.lw_map.specs.Choices.{AreChoicesOf, root_of};
ghost use Rattle.lw_map.specs.Faults.{IsChoiceFault};
ghost use Rattle.lw_laws.specs.Mapped.{forms_of};
ghost use Rattle.lw_net.specs.Plain.{plain};
ghost use Rattle.lw_pool.specs.Numbers.{numbers};

use crate::{MapFault, Options};
use lw_assoc::build;
use lw_form::{Forms, forms};
use lw_graph::Graph;
use lw_net::Network;
use lw_pool::Classes;
use std::alloc::{AllocError, Global};

/// The choices of decomposition that a network leaves under these options: how many base forms
/// occur, the graph of their classes, and the class of each output.
#[derive(Drop)]
pub struct Choices {
    pub options: Options,
    pub forms: u32,
    pub graph: Graph,
    pub roots: Classes,
}

// The class of each output, by the form of its net.
fn roots(alloc: Global, net: &Network, forms: &Forms, graph: &Graph) -> Result<Classes, AllocError>
    requires sops { length forms.now.sops ≡ length net.now.names }
    requires bases { length graph.now.forms ≡ length forms.now.bases }
    ensures roots { IfOk result (λ roots. numbers roots
        ≡ map (root_of forms.now graph.now) net.now.outputs) }
    ensures within { IfOk result (All (λ (root : ClassId). root.0 < length graph.now.pairs)) }
{
    let _ = forms.nets();
    let outputs = net.outputs();
    let mut roots = Vec::with_capacity(alloc, outputs.len())?;
    for output in outputs {
        roots.push(graph.class_of(forms.sop(*output)))?;
    }
    Ok(Classes::from_vec(roots))
}

impl Options {
    // The choices of decomposition of a network, given its forms.
    fn choices(self, alloc: Global, net: &Network, forms: &Forms) -> Result<Choices, MapFault>
        requires { forms.now ≡ forms_of self.width (plain net.now) }
        ensures choices { IfOk result (λ c. (c.options ≡ self) × AreChoicesOf net.now c) }
        ensures fault { IfErr result (IsChoiceFault (plain_options self) net.now) }
    {
        let _ = net.inputs();
        let count = forms.len();
        let graph = build(alloc, forms, self.mode)?;
        let roots = roots(alloc, net, forms, &graph)?;
        Ok(Choices {
            options: self,
            forms: count,
            graph,
            roots,
        })
    }
}

/// The choices of decomposition of a network. `Forms` and `Splits` come exactly where there are
/// more than are dealt with.
pub fn decompose(alloc: Global, net: &Network, options: Options) -> Result<Choices, MapFault>
    ensures choices { IfOk result (λ c. (c.options ≡ options) × AreChoicesOf net.now c) }
    ensures fault { IfErr result (IsChoiceFault (plain_options options) net.now) }
{
    let listed = forms(alloc, net, options.width)?;
    let choices = options.choices(alloc, net, &listed);
    drop(listed);
    choices
}
