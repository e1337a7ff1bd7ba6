//! Laws of class lists.

ghost use Rattle.gs_filter.specs.Laws.{ClassesHaveNoFault};

/// Proves that lists that are classes have no fault.
pub fn classes_have_no_fault()
    ensures { ClassesHaveNoFault }
{}
