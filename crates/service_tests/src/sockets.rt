//! Sessions over real sockets, with workers and a folder, in one process.
//!
//! `serve FOLDER JOURNAL WORKERS SESSIONS [READERS] LINES`: a service, each of whose sessions ends after one connection, and
//! clients of it, one behind the other. `.` is the folder in which the program runs, and no journal. A line is the
//! number of a client and a command, whose reply is read; `poll FIRST`, which asks for the image until its reply
//! begins so; `head COMMAND`, of whose reply the first line alone is shown; or `send TEXT` and `send_line TEXT`, of which nothing is read, from a client that goes away then. An empty line stands
//! between two of them. `gather` in place of them: sixteen clients insert five cards each in one deck at the same
//! time, and the first reads them all.
ghost use Rattle.std.specs.Prelude.{◌≡◌, ◌≤◌, true};
ghost use Rattle.desk_service.specs.Services.{AreInRange};

use crate::hosting::post;
use desk_service::{Journaling, Settings, serve_on};
use std::alloc::{AllocGlobal, Global};
use std::fs::File;
use std::io::{self, BufRead, BufReader, Write};
use std::net::{Net, SocketAddr, TcpListener, TcpStream};
use std::random::RandomSource;
use std::rt::Files;
use std::sync::Wait;
use std::thread;
use std::thread::Threads;
use std::time::{Clock, Duration};
use test_parts::{Answer, cut, cut_line, cut_number, number};

/// Where a service listens: at a port that is free.
pub(crate) const ADDRESS: &str = "127.0.0.1:0";

/// How many clients edit one deck.
const CLIENTS: usize = 16;

/// How many cards each of them inserts.
const CARDS: usize = 5;

/// How often a client asks again at most.
const TRIES: usize = 10_000;

/// A client's connection, and the reply that it read last.
#[derive(Drop)]
pub(crate) struct Client {
    reader: BufReader<TcpStream>,
    reply: String,
}

impl Client {
    pub(crate) fn connect<R: Net<Stream = TcpStream>>(
        rt: &R,
        alloc: Global,
        address: SocketAddr,
    ) -> io::Result<Client> {
        let stream = TcpStream::connect(rt, address)?;
        let reader = BufReader::new(alloc, stream)?;
        let reply = String::new(alloc);
        Ok(Client { reader, reply })
    }

    /// Sends text as it stands.
    pub(crate) fn send(&mut self, text: &str) -> io::Result<()> {
        self.reader.get_mut().write_all(text.as_bytes())
    }

    /// Reads a line of a reply.
    fn read(&mut self) -> io::Result<()> {
        self.reader.read_line(&mut self.reply)?;
        Ok(())
    }

    /// Reads all that comes, up to the end of the connection.
    pub(crate) fn read_all(&mut self) -> io::Result<&str> {
        for _ in 0..TRIES {
            if self.reader.read_line(&mut self.reply)? == 0 {
                break;
            }
        }
        Ok(self.reply.as_str())
    }

    /// Says a command, and reads the whole reply.
    fn ask(&mut self, command: &str) -> io::Result<()> {
        self.send(command)?;
        self.send("\n")?;
        self.reply.clear();
        self.read()?;
        for _ in 0..lines_behind(self.reply.as_str().trim_end()) {
            self.read()?;
        }
        Ok(())
    }

    /// Asks until the reply begins so.
    fn poll<R: Clock>(&mut self, rt: &R, command: &str, first: &str) -> io::Result<()> {
        for _ in 0..TRIES {
            self.ask(command)?;
            if cut_line(self.reply.as_str()).0 == first {
                break;
            }
            let _ = thread::sleep(rt, Duration::from_millis(1));
        }
        Ok(())
    }

    /// Inserts one card in front of a deck of this version.
    fn insert_at(&mut self, alloc: Global, version: u64, card: &str) -> io::Result<()> {
        let line = format!(in alloc; "INS M {version} 1 {card}")?;
        self.ask(line.as_str())
    }

    /// Inserts one card, as often as it is answered that the deck has another version by now.
    fn insert(&mut self, alloc: Global, card: &str) -> io::Result<()> {
        let mut version = 1;
        for _ in 0..TRIES {
            self.insert_at(alloc, version, card)?;
            match self.reply.as_str().strip_prefix("NO OldVersion ") {
                Some(other) => version = number(other.trim_end()),
                None => break,
            }
        }
        Ok(())
    }

    /// Inserts the card of a client and of a number.
    fn insert_numbered(&mut self, alloc: Global, client: usize, card: usize) -> io::Result<()> {
        let card = format!(in alloc; "*{client} {card}")?;
        self.insert(alloc, card.as_str())
    }

    /// Adds the deck, where no other client has, and inserts the cards of a client.
    fn insert_all(&mut self, alloc: Global, client: usize) -> io::Result<()> {
        self.ask("ADD M")?;
        if !matches!(self.reply.as_str(), "OK 1\n" | "NO NameTaken\n") {
            return Err(io::Error::other("no deck"));
        }
        for card in 0..CARDS {
            self.insert_numbered(alloc, client, card)?;
        }
        Ok(())
    }

    /// Inserts the cards of a client, and forgets the reply where that is cut off.
    fn insert_or_forget(&mut self, alloc: Global, client: usize) {
        if self.insert_all(alloc, client).is_err() {
            self.reply.clear();
        }
    }
}

/// How many lines stand behind the first line of a reply: the third of its words shows it.
fn lines_behind(first: &str) -> u64 {
    let (word, rest) = cut(first);
    if word == "OK" { number(cut(rest).1) } else { 0 }
}

/// Whether a service may have these settings.
pub(crate) fn are_in_range(settings: &Settings<'_>) -> bool
    ensures { result ≡ true → AreInRange settings.now }
{
    1 <= settings.workers
        && settings.workers <= 16
        && 1 <= settings.sessions
        && settings.sessions <= 16
        && settings.readers <= 16
        && 1 <= settings.idle
}

/// Serves by these settings, if they are in range, and returns whether that ended well.
fn serve_in_range<R>(rt: &R, alloc: Global, listener: &TcpListener, settings: &Settings<'_>) -> bool
where
    R: Threads
        + Wait
        + Sync
        + Files<File = File>
        + AllocGlobal
        + Clone
        + Drop
        + Clock
        + Eprint
        + RandomSource
        + Net<Stream = TcpStream, Listener = TcpListener>,
    R::File: Send,
    R::Dir: Send,
{
    are_in_range(settings) && serve_on(rt, alloc, listener, settings).is_ok()
}

/// The folder and the journal of a service, in which `.` stands for the one and for none, and its threads; and what
/// clients say.
pub(crate) fn settings_of(text: &str) -> (Settings<'_>, &str) {
    let (head, script) = cut_line(text);
    let (folder, rest) = cut(head);
    let (journal, rest) = cut(rest);
    let (workers, rest) = cut_number(rest);
    let (sessions, rest) = cut_number(rest);
    let settings = Settings {
        root: if folder == "." { "" } else { folder },
        journal: if journal == "." {
            Journaling::Off
        } else {
            Journaling::At(journal)
        },
        compact: false,
        port: 0,
        workers: workers as usize,
        sessions: sessions as usize,
        readers: number(rest) as usize,
        idle: 900,
        once: true,
    };
    (settings, script)
}

/// Makes a step of this word, if it is one of services, and answers whether it is: serves at a port that is free,
/// while clients say something.
pub fn make<R>(rt: &R, alloc: Global, word: &str, rest: &str, answer: &mut Answer) -> bool
where
    R: Threads
        + Wait
        + Sync
        + Files<File = File>
        + AllocGlobal
        + Clone
        + Drop
        + Clock
        + Eprint
        + RandomSource
        + Net<Stream = TcpStream, Listener = TcpListener>,
    R::File: Send,
    R::Dir: Send,
{
    if word != "serve" {
        return false;
    }
    let (settings, script) = settings_of(rest);
    if let Ok(listener) = TcpListener::bind(rt, ADDRESS) {
        let (is_served, told) = thread::join(
            rt,
            || serve_in_range(rt, alloc, &listener, &settings),
            || talk(rt, alloc, &listener, script),
        );
        answer.push(told.text().unwrap_or("no memory"));
        answer.push("served ");
        answer.debug(&is_served);
        answer.line("");
    }
    true
}

/// What clients are shown.
fn talk<R: Threads + Sync + Net<Stream = TcpStream> + Clock>(
    rt: &R,
    alloc: Global,
    listener: &TcpListener,
    script: &str,
) -> Answer {
    let mut answer = Answer::new(alloc);
    let done = match listener.local_addr() {
        Ok(address) if script == "gather" => gather(rt, alloc, address, &mut answer),
        Ok(service) => {
            let addresses = Addresses {
                service,
                page: None,
            };
            say_all(rt, alloc, &addresses, script, &mut answer)
        }
        Err(error) => Err(error),
    };
    if done.is_err() {
        answer.push("broken ");
    }
    answer
}

/// Where a service listens, and its page, if it has one.
#[derive(Clone, Copy)]
pub(crate) struct Addresses {
    pub(crate) service: SocketAddr,
    pub(crate) page: Option<SocketAddr>,
}

/// Clients say what a script has.
pub(crate) fn say_all<R: Net<Stream = TcpStream> + Clock>(
    rt: &R,
    alloc: Global,
    addresses: &Addresses,
    script: &str,
    answer: &mut Answer,
) -> io::Result<()> {
    let address = addresses.service;
    let mut clients = Vec::new(alloc);
    for entry in script.split("\n\n") {
        let (word, rest) = cut(entry);
        match word {
            "send" => go_away(rt, alloc, address, rest, "")?,
            "send_line" => go_away(rt, alloc, address, rest, "\n")?,
            "page" => match addresses.page {
                Some(page) => post(rt, alloc, page, rest, answer)?,
                None => return Err(io::Error::other("no page")),
            },
            _ => {
                let client = client_at(rt, alloc, address, &mut clients, number(word) as usize)?;
                say(rt, client, rest)?;
                push_said(answer, rest, client.reply.as_str());
            }
        }
    }
    Ok(())
}

/// A client that sends this and goes away.
fn go_away<R: Net<Stream = TcpStream>>(
    rt: &R,
    alloc: Global,
    address: SocketAddr,
    text: &str,
    end: &str,
) -> io::Result<()> {
    let mut client = Client::connect(rt, alloc, address)?;
    client.send(text)?;
    client.send(end)
}

/// The client of a number, connected where there is none yet.
fn client_at<'a, R: Net<Stream = TcpStream>>(
    rt: &R,
    alloc: Global,
    address: SocketAddr,
    clients: &'a mut Vec<Client>,
    number: usize,
) -> io::Result<&'a mut Client> {
    if clients.len() < number {
        clients.push(Client::connect(rt, alloc, address)?)?;
    }
    match clients.get_mut(number.saturating_sub(1)) {
        Some(client) => Ok(client),
        None => Err(io::Error::other("no such client")),
    }
}

/// A client says this.
fn say<R: Clock>(rt: &R, client: &mut Client, command: &str) -> io::Result<()> {
    match command.strip_prefix("poll ") {
        // The worker gets to the image by the bell alone.
        Some(first) => client.poll(rt, "IMAGE", first),
        None => client.ask(command.strip_prefix("head ").unwrap_or(command)),
    }
}

/// What is shown of the reply to what a client said.
fn push_said(answer: &mut Answer, command: &str, reply: &str) {
    if command.starts_with("head ") {
        answer.push(cut_line(reply).0);
        answer.line("");
    } else {
        answer.push(reply);
    }
}

/// Sixteen clients, connected.
fn clients_at<R: Net<Stream = TcpStream>>(
    rt: &R,
    alloc: Global,
    address: SocketAddr,
) -> io::Result<Vec<Client>> {
    let mut clients = Vec::new(alloc);
    for _ in 0..CLIENTS {
        clients.push(Client::connect(rt, alloc, address)?)?;
    }
    Ok(clients)
}

/// Whether each of the clients had its last card taken.
fn are_taken(clients: &[Client]) -> bool {
    let mut are_taken = true;
    for client in clients {
        are_taken &= client.reply.as_str().starts_with("OK ");
    }
    are_taken
}

/// Sixteen clients, each in a thread of its own, insert their cards; and the first looks at the deck until all stand
/// there.
pub(crate) fn gather<R: Threads + Sync + Net<Stream = TcpStream> + Clock>(
    rt: &R,
    alloc: Global,
    address: SocketAddr,
    answer: &mut Answer,
) -> io::Result<()> {
    let mut clients = clients_at(rt, alloc, address)?;
    let insert = &|number, client: &mut Client| client.insert_or_forget(alloc, number);
    thread::for_each_mut(rt, &mut clients, 1, insert);
    if !are_taken(&clients) {
        return Err(io::Error::other("a client that is cut off"));
    }
    match clients.first_mut() {
        Some(first) => {
            first.poll(rt, "CARDS M", "OK 81 80")?;
            push_gathered(alloc, first.reply.as_str(), answer)
        }
        None => Err(io::Error::other("no such client")),
    }
}

/// The first line of the reply that shows the deck, and how many of the cards that were inserted stand below.
fn push_gathered(alloc: Global, reply: &str, answer: &mut Answer) -> io::Result<()> {
    answer.push(cut_line(reply).0);
    answer.number(", cards ", cards_shown(alloc, reply)?);
    answer.line("");
    Ok(())
}

/// How many of the cards that were inserted a reply shows.
fn cards_shown(alloc: Global, reply: &str) -> io::Result<u64> {
    let mut shown = 0u64;
    for number in 0..CLIENTS * CARDS {
        let (client, card) = (number / CARDS, number % CARDS);
        let line = format!(in alloc; "\n*{client} {card}\n")?;
        shown = shown.saturating_add(u64::from(reply.find(line.as_str()).is_some()));
    }
    Ok(shown)
}
