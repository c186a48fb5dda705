//! The file that a graph goes into.
ghost use Rattle.std.specs.Prelude.{◌≡◌, nat_eq};
ghost use Rattle.std.specs.List.{ends_with};
ghost use Rattle.occ_play_inputs.specs.GraphNames.{is_graph_name, named_form};

use occ_explore::GraphForm;

/// Whether a path ends so.
fn ends_so(path: &str, end: &str) -> bool
    ensures { result ≡ ends_with nat_eq path.now end.now }
{
    path.ends_with(end)
}

/// Whether a graph may go into the file of this path: one that ends in `.aut`, `.dot` or `.gv`.
pub(crate) fn is_graph_name(path: &str) -> bool
    ensures { result ≡ is_graph_name path.now }
{
    ends_so(path, ".aut") || ends_so(path, ".dot") || ends_so(path, ".gv")
}

/// How a graph is written into the file of this path: for Graphviz where it ends in `.dot` or `.gv`, and else as an Aldebaran file.
pub fn named_form(path: &str) -> GraphForm
    ensures { result ≡ named_form path.now }
{
    if ends_so(path, ".dot") || ends_so(path, ".gv") {
        GraphForm::Graphviz
    } else {
        GraphForm::Aldebaran
    }
}
