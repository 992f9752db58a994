ghost use Rattle.std.specs.Prelude.{◌≡◌, ◌≤◌, ℕ, length};
ghost use Rattle.std.specs.List.{IsDistinct};
ghost use Rattle.std.specs.Str.{bytes_eq};
ghost use Rattle.lw_net.specs.Networks.{NetworkParts, IsNetwork, input_names, output_names};
ghost use Rattle.lw_big.specs.Generated.{most_nodes, IsGenerated};

/// What is drawn is a network of 16 inputs and n nodes whose names differ. Those of its inputs
/// differ, and those of its outputs do.
pub fn generated_is_network()
    ensures network { (seed n : ℕ) (net : NetworkParts) → n ≤ most_nodes → IsGenerated seed n net →
        IsNetwork net }
    ensures inputs { (seed n : ℕ) (net : NetworkParts) → n ≤ most_nodes → IsGenerated seed n net →
        net.inputs ≡ 16 }
    ensures nodes { (seed n : ℕ) (net : NetworkParts) → n ≤ most_nodes → IsGenerated seed n net →
        length net.nodes ≡ n }
    ensures names { (seed n : ℕ) (net : NetworkParts) → n ≤ most_nodes → IsGenerated seed n net →
        IsDistinct bytes_eq net.names }
    ensures input_names { (seed n : ℕ) (net : NetworkParts) → n ≤ most_nodes →
        IsGenerated seed n net → IsDistinct bytes_eq (input_names net) }
    ensures output_names { (seed n : ℕ) (net : NetworkParts) → n ≤ most_nodes →
        IsGenerated seed n net → IsDistinct bytes_eq (output_names net) }
{}
