//! Who is connected: the names of the sessions that are.
ghost use Rattle.std.specs.Prelude.{◌≡◌, ◌++◌, All, IfOk, OnOk, None, Some, length, option_map, set};
ghost use Rattle.desk_service.specs.Company.{listed_at, listed_from, rights_at, seated};

use cards::DeckName;
use session_line::{Connected, Rights};
use std::alloc::{AllocError, Global};
use std::marker::Model;

/// The sessions of a service, by their numbers: the name of each that is connected. So many of the first may
/// edit, and the others may ask.
#[derive(Drop)]
pub(crate) struct Company {
    editors: usize,
    seats: Vec<Option<DeckName>>,
}

impl Model for Company {
    ghost use Rattle.desk_service.specs.Company as companies;

    ghost Value = { companies.Company };

    ghost view = { λ c. record { editors = c.editors; seats = c.seats.items } };
}

/// What the session of a number may do, where so many may edit.
pub(crate) fn rights_at(editors: usize, number: usize) -> Rights
    ensures { result ≡ rights_at editors number }
{
    if number < editors {
        Rights::Edits
    } else {
        Rights::Reads
    }
}

/// The name of a session: the one of this number gives this.
fn seated<'a>(
    at: usize,
    number: usize,
    name: &'a DeckName,
    seat: &'a Option<DeckName>,
) -> Option<&'a DeckName>
    ensures { option_map (λ who. who.now) result ≡ seated at number name.now seat.now }
{
    if at == number {
        Some(name)
    } else {
        seat.as_ref()
    }
}

/// Puts a session of this number behind others, if it is connected.
fn push_connected(
    sessions: &mut Vec<Connected>,
    editors: usize,
    at: usize,
    who: Option<&DeckName>,
) -> Result<(), AllocError>
    ensures { OnOk result (sessions.new.items ≡ sessions.old.items ++ listed_at editors at (option_map (λ who. who.now) who.entry)) }
{
    if let Some(who) = who {
        sessions.push(Connected {
            number: at as u64,
            who: who.copied(),
            rights: rights_at(editors, at),
        })?;
    }
    Ok(())
}

impl Company {
    /// So many sessions, of which so many may edit; none is connected.
    pub(crate) fn new(alloc: Global, sessions: usize, editors: usize) -> Result<Company, AllocError>
        ensures editors { IfOk result (λ company. company.editors ≡ editors) }
        ensures all { IfOk result (λ company. length company.seats ≡ sessions) }
        ensures nobody { IfOk result (λ company. All (λ seat. seat ≡ None) company.seats) }
    {
        let mut seats = Vec::new(alloc);
        for _ in 0..sessions {
            seats.push(None)?;
        }
        Ok(Company { editors, seats })
    }

    /// The session of this number is connected, and has this name.
    pub(crate) fn note(&mut self, number: usize, name: DeckName)
        ensures { self.new ≡ record self.old { seats = set self.old.seats number (Some name) } }
    {
        if let Some(seat) = self.seats.get_mut(number) {
            *seat = Some(name);
        }
    }

    /// The session of this number is connected no more.
    pub(crate) fn leave(&mut self, number: usize)
        ensures { self.new ≡ record self.old { seats = set self.old.seats number None } }
    {
        if let Some(seat) = self.seats.get_mut(number) {
            *seat = None;
        }
    }

    /// Who is connected, in the order of the numbers; the session of this number gives this name.
    pub(crate) fn listed(
        &self,
        alloc: Global,
        number: usize,
        name: &DeckName,
    ) -> Result<Vec<Connected>, AllocError>
        ensures { IfOk result (λ sessions. sessions.items ≡ listed_from self.now.editors 0 number name.now self.now.seats) }
    {
        let mut sessions = Vec::new(alloc);
        for (at, seat) in self.seats.iter().enumerate() {
            let who = seated(at, number, name, seat);
            push_connected(&mut sessions, self.editors, at, who)?;
        }
        Ok(sessions)
    }
}
