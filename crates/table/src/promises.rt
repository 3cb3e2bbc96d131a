//! What holds of the check whatever the table: promises that no single call can state.
ghost use Rattle.table.specs.Checking.{Checked, Passed};

/// The answer of the check means what it says. It passes exactly the tables that have no fault, and those are accepted;
/// a refusal names a fault that is there, and none that comes before it is.
pub fn the_check_means_what_it_says()
    ensures { Checked }
{}

/// A table whose kinds are all known passes if and only if it is accepted.
pub fn passing_is_being_accepted()
    ensures { Passed }
{}
