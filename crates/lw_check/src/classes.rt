// The class numbers of a certificate.
ghost use Rattle.std.specs.Prelude.{◌≡◌, ◌≤◌, find, length, nat_le, option_map};
ghost use Rattle.std.specs.List.{filter_map};
ghost use Rattle.lw_mapped.specs.Standing.{AreLabels};
ghost use Rattle.lw_check.specs.Cases.{claim_of};
ghost use Rattle.lw_check.specs.Claims.{class_number, first_unknown_class, labelled_from};
ghost use Rattle.lw_laws.specs.Graphs.{most_classes};

use crate::case::Case;
use lw_fixed::Micro;
use lw_pool::ClassId;

// The first class from `classes` on, the number of classes of the graph, that has a label; none if
// none has.
fn first_labelled(labels: &[Option<Micro>], classes: u32) -> Option<u32>
    requires { length labels.now ≤ most_classes }
    ensures { result ≡ find (nat_le classes) (labelled_from 0 labels.now) }
{
    for class in classes..labels.len() as u32 {
        if labels[class as usize].is_some() {
            return Some(class);
        }
    }
    None
}

// The first of the classes of gates that is `classes` or more, the number of classes of the graph;
// none if none is.
fn first_beyond(nets: &[Option<ClassId>], classes: u32) -> Option<u32>
    ensures { result ≡ find (nat_le classes) (filter_map (option_map class_number) nets.now) }
{
    for net in nets {
        if let Some(class) = net {
            if class.0 >= classes {
                return Some(class.0);
            }
        }
    }
    None
}

// The second test: the first class number of the certificate that is none of the graph, labels
// before nets, or none.
pub(crate) fn first_unknown(case: &Case) -> Option<u32>
    requires { AreLabels case.now.mapped.now.cert }
    ensures { result ≡ first_unknown_class (claim_of case.now) }
{
    let classes = case.graph.classes();
    match first_labelled(case.mapped.cert.labels.as_slice(), classes) {
        Some(class) => Some(class),
        None => first_beyond(case.mapped.cert.nets.as_slice(), classes),
    }
}
