//! What can be called, and what is answered.
use engine::fault::TickFault;
use monitor::reading::ReadFault;
use outbox::fault::TakeFault;
use record::Record;

/// A call on a monitor or its outbox.
#[derive(Clone, Copy)]
pub enum Call {
    /// One tick of the monitor.
    Tick,
    /// The early reading of a rule.
    Read(u8),
    /// The oldest record of the outbox.
    Take,
}

/// What a call answered.
#[derive(Clone, Copy)]
pub enum Answer<V> {
    Ticked(Result<(), TickFault>),
    Ends(Result<(V, V), ReadFault>),
    Taken(Result<Record<V>, TakeFault>),
}
