//! The laws of views.

ghost use Rattle.mst_view.specs.Laws.{ViewLaw, ViewSizeLaw};

/// Reading blocks at a root gives a list exactly where the list is a view, so at most one list is. Else it names a link:
/// exactly that of the first block at fault, parents first and left to right, or the root where a hole's link stands twice
/// in what is else a view.
pub fn view_law()
    ensures { ViewLaw }
{}

/// A view has at most as many nodes as there are blocks.
pub fn view_size_law()
    ensures { ViewSizeLaw }
{}
