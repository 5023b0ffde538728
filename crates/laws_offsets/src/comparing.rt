//! How published ranges are compared with what is stored.

ghost use Rattle.laws_offsets.specs.Comparing.{FaultIsOfFirst, NoFaultWhereAllGoOn};

/// No fault is found exactly where each range starts at the stored offset, if there is one, and doesn't
/// end before it starts.
pub fn no_fault_where_all_go_on()
    ensures { NoFaultWhereAllGoOn }
{}

/// Else the fault is that of the first range that doesn't, and tells its partition, and what is stored
/// where the range starts elsewhere.
pub fn fault_is_of_first()
    ensures { FaultIsOfFirst }
{}
