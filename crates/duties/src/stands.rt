// What holds of the definitions, whatever a program does with them.
ghost use Rattle.duties.specs.Duties.{DutiesAreTotallyOrdered};

pub fn duties_are_totally_ordered()
    ensures { DutiesAreTotallyOrdered }
{}
