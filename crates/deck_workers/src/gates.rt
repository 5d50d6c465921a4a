//! The gate that each job goes through.

/// A gate that a worker enters before it runs a job, with the job's lease, and leaves after it. Workers
/// share it.
pub trait Gate {
    fn enter(&self, lease: u64);

    fn leave(&self, lease: u64);
}

/// A gate that is always open.
#[derive(Clone, Copy, Drop)]
pub struct OpenGate;

impl Gate for OpenGate {
    fn enter(&self, lease: u64) {
        let _ = lease;
    }

    fn leave(&self, lease: u64) {
        let _ = lease;
    }
}
