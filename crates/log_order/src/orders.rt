//! The order of a log that was found.

ghost use Rattle.log_order.specs.OrderLaws.{OrderBegun, OrderEmpty, OrderPush, OrderRecovered};

/// A record that comes next, behind a log of version 2, is one behind its order.
pub fn record_extends_the_order()
    ensures { OrderPush }
{}

/// A checkpoint with the registry and the last record of the whole order leaves the order.
pub fn checkpoint_leaves_the_order()
    ensures { OrderBegun }
{}

/// The log that is made of the empty registry has the empty order.
pub fn empty_log_has_no_order()
    ensures { OrderEmpty }
{}

/// What is decoded from a log gives the last record of its order and the registry behind all of it.
pub fn decoded_log_is_the_order()
    ensures { OrderRecovered }
{}
