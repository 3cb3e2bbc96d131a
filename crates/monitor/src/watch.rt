//! The monitor.
use engine::state::Core;

/// A monitor of a plan, over the queue memory that it is lent. It has to be closed.
pub struct Monitor<'m, V> {
    core: Core,
    memory: &'m mut [V],
}

mod calls;
