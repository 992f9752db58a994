ghost use Rattle.std.specs.Prelude.{ℕ, ◌<◌, List, length, map, slice_index_or, All};
ghost use Rattle.lw_aig.specs.declared.gate.Gate.{Gate};
ghost use Rattle.lw_aig.specs.declared.literal.Literal.{Literal};
ghost use Rattle.lw_aig.specs.Aigs.{AreEqual, IsAig};
ghost use Rattle.lw_laws.specs.Networks.{Network};
ghost use Rattle.lw_net.specs.Networks.{NetworkParts};
ghost use Rattle.lw_sweep.specs.Sweeps.{IsExtended, inputs_alone};
ghost use Rattle.lw_joint.specs.Joint.{HaveNetValues};
ghost use Rattle.lw_joint.specs.Pairs.{HasInputs, HaveEqualValues, IsPlaced, input_literal};

/// What literals of nets tell of the nets, and that they still do when the graph has grown.
pub fn equal_literals_tell()
    ensures nets { (gates : List Gate) (one other : Network) (ones others : List ℕ)
        (lits lits' : List Literal) (k m : ℕ) (d : Literal) →
        IsAig gates → HasInputs gates ones → HasInputs gates others →
        HaveNetValues gates one (map input_literal ones) lits →
        HaveNetValues gates other (map input_literal others) lits' →
        k < length lits → m < length lits' →
        AreEqual gates (slice_index_or lits k d) (slice_index_or lits' m d) →
        HaveEqualValues one ones k other others m }
    ensures later { (old new : List Gate) (net : Network) (inputs lits : List Literal) →
        IsExtended old new → HaveNetValues old net inputs lits →
        HaveNetValues new net inputs lits }
{}

/// A graph of inputs alone has shared inputs below their number, and what is placed in a graph is
/// still placed when it has grown.
pub fn placed_networks_stay()
    ensures begin { (inputs : ℕ) (places : List ℕ) → All (λ i. i < inputs) places →
        HasInputs (inputs_alone inputs) places }
    ensures inputs { (old new : List Gate) (places : List ℕ) → IsExtended old new →
        HasInputs old places → HasInputs new places }
    ensures placed { (old new : List Gate) (net : NetworkParts) (places : List ℕ)
        (lits : List Literal) → IsExtended old new → IsPlaced old net places lits →
        IsPlaced new net places lits }
{}
