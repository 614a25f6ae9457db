//! Laws of the order in which a machine's operations are performed, each the contract of a function
//! that does nothing.
ghost use Rattle.machine_model.specs.OrderLaws.{OrderAlways, PreservedAlways};

/// Whatever events come, the completed order has every operation once.
pub fn order_always()
    ensures { OrderAlways }
{}

/// Whatever events come, the completed order keeps preserved program order under the configured model.
pub fn preserved_always()
    ensures { PreservedAlways }
{}
