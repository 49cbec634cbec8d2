//! A gate that each piece of parallel work goes through.

/// Called once at the start of every piece of work. It has no effect that a contract sees.
pub trait Gate: Sync {
    fn enter(&self, piece: usize);
}

/// The gate that does nothing.
#[derive(Clone, Copy)]
pub struct NoGate;

impl Gate for NoGate {
    fn enter(&self, _piece: usize) {}
}
