// What holds of the order of names.
ghost use Rattle.names.specs.Names.{NamesAreTotallyOrdered};

// Its contract is the theorem: without a proof of it the crate is refused.
pub fn names_are_totally_ordered()
    ensures { NamesAreTotallyOrdered }
{}
