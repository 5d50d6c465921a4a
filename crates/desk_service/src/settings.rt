//! What a service is started with.
ghost use Rattle.std.specs.Prelude.{◌≡◌};
ghost use Rattle.desk_service.specs.Versions.{is_journal, journal_name};

/// Where a service keeps the journal of its changes.
#[derive(Clone, Copy)]
pub enum Journaling<'a> {
    /// Nowhere.
    Off,
    /// In the file `beskloun.journal` of the folder.
    InRoot,
    /// In the file of this path.
    At(&'a str),
}

/// The journal of a folder, unless another file is named.
pub(crate) const JOURNAL: &str = "beskloun.journal";

impl<'a> Journaling<'a> {
    /// The name under which a folder notes the journal.
    pub(crate) fn name(self) -> &'a str
        ensures { result.now ≡ journal_name self.entry }
    {
        match self {
            Journaling::Off => "none",
            Journaling::InRoot => JOURNAL,
            Journaling::At(path) => path,
        }
    }

    /// Whether it keeps anything.
    pub(crate) fn is_kept(self) -> bool
        ensures { result ≡ is_journal self.entry }
    {
        !matches!(self, Journaling::Off)
    }
}

/// What a service is started with: the folder of the deck files, where its journal is, the port on
/// 127.0.0.1, how many workers and session threads it has, for how many seconds a client may be idle, and
/// whether each session thread ends after one connection.
#[derive(Clone, Copy)]
pub struct Settings<'a> {
    pub root: &'a str,
    pub journal: Journaling<'a>,
    /// Whether the journal is begun anew with the present decks.
    pub compact: bool,
    pub port: u16,
    pub workers: usize,
    pub sessions: usize,
    /// How many further connections may ask, and change nothing.
    pub readers: usize,
    pub idle: u64,
    pub once: bool,
}
