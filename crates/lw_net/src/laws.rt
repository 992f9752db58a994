ghost use Rattle.std.specs.Prelude.{◌≡◌};
ghost use Rattle.std.specs.List.{IsDistinct};
ghost use Rattle.std.specs.Str.{bytes_eq};
ghost use Rattle.lw_net.specs.declared.draft.Draft.{Draft};
ghost use Rattle.lw_net.specs.Closing.{IsDraft, IsClosed};
ghost use Rattle.lw_net.specs.Networks.{NetworkParts, IsNetwork, input_names, output_names};

/// What a draft is closed to is a network whose names differ, and whose inputs and outputs have the
/// draft's names.
pub fn closed_is_network()
    ensures network { (draft : Draft) (net : NetworkParts) → IsDraft draft → IsClosed draft net →
        IsNetwork net }
    ensures names { (draft : Draft) (net : NetworkParts) → IsDraft draft → IsClosed draft net →
        IsDistinct bytes_eq net.names }
    ensures inputs { (draft : Draft) (net : NetworkParts) → IsDraft draft → IsClosed draft net →
        input_names net ≡ draft.inputs }
    ensures outputs { (draft : Draft) (net : NetworkParts) → IsDraft draft → IsClosed draft net →
        output_names net ≡ draft.outputs }
{}
