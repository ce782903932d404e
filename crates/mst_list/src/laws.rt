//! Laws of lists with holes. Each is the contract of a call that does nothing.

ghost use Rattle.mst_list.specs.Laws.{VisibleLaw, EditLaw, UndoingOrderLaw};

/// In a list whose keys ascend, a key is visible with a value exactly where an item holds it with that value.
pub fn visible_law()
    ensures { VisibleLaw }
{}

/// An edit gives its key the value, or takes the key out, and leaves every other key and all holes as they are.
pub fn edit_law()
    ensures { EditLaw }
{}

/// Operations that agree and are guarded can be undone in any order.
pub fn undoing_order_law()
    ensures { UndoingOrderLaw }
{}
