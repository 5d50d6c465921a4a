//! Clients on their way to a session: those that may edit have other channels than those that may ask, of another
//! type, so that none of them comes out where the others do.
ghost use Rattle.std.specs.Prelude.{◌≡◌, IfOk};
ghost use Rattle.desk_service.specs.Connections.{rights_of};

use crate::seating::Channels;
use crossbeam_channel::{Receiver, RecvError};
use session_line::Rights;
use std::alloc::AllocError;
use std::net::TcpStream;
use std::sync::Wait;

/// A client that may edit.
#[derive(Drop)]
pub(crate) struct ToEdit(pub(crate) TcpStream);

/// A client that may ask, and changes nothing.
#[derive(Drop)]
pub(crate) struct ToRead(pub(crate) TcpStream);

/// Where a session gets its clients from.
#[derive(Drop)]
pub(crate) enum Clients {
    /// They may edit.
    Editing(Receiver<ToEdit>),
    /// They may ask.
    Reading(Receiver<ToRead>),
}

impl Clients {
    /// The connection of the next client, once one comes.
    pub(crate) fn next<R: Wait>(&self, rt: &R) -> Result<TcpStream, RecvError> {
        match self {
            Clients::Editing(clients) => {
                let ToEdit(stream) = clients.recv(rt)?;
                Ok(stream)
            }
            Clients::Reading(clients) => {
                let ToRead(stream) = clients.recv(rt)?;
                Ok(stream)
            }
        }
    }
}

/// Where a session gets its clients from that may do this.
pub(crate) fn clients_for(rights: Rights, channels: &Channels) -> Result<Clients, AllocError>
    ensures { IfOk result (λ clients. rights_of clients ≡ rights) }
{
    match rights {
        Rights::Edits => Ok(Clients::Editing(channels.received.clone()?)),
        Rights::Reads => Ok(Clients::Reading(channels.received_to_read.clone()?)),
    }
}
