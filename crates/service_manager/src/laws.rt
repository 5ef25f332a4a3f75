//! What holds of a service after any decisions.

ghost use Rattle.service_manager.specs.Course.{ExecutesInOrder, IsSequential, IsServed};

/// The service is the sequential one, over the batches that it executed since the last state that it took over.
pub fn service_is_sequential()
    ensures sequential { IsSequential }
    ensures served { IsServed }
    ensures in_order { ExecutesInOrder }
{}
