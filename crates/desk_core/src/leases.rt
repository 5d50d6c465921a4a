//! What a job is given out under.
ghost use Rattle.std.specs.Prelude.{◌≡◌};
ghost use Rattle.desk_core.specs.Desks.{is_leased, is_leased_at};

/// A lease: its number, and the version at which it was given.
#[derive(Clone, Copy)]
pub struct Lease {
    pub number: u64,
    pub version: u64,
}

/// Whether a lease is out under this number.
pub(crate) fn is_leased(number: u64, lease: Option<Lease>) -> bool
    ensures { result ≡ is_leased number lease }
{
    match lease {
        None => false,
        Some(lease) => lease.number == number,
    }
}

/// Whether a lease is out that was given at this version.
pub(crate) fn is_leased_at(version: u64, lease: Option<Lease>) -> bool
    ensures { result ≡ is_leased_at version lease }
{
    match lease {
        None => false,
        Some(lease) => lease.version == version,
    }
}
