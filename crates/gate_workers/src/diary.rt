//! A list of entries behind a gate.
ghost use Rattle.std.specs.Prelude.{◌≡◌, ◌++◌, [], ◌∷◌, OnOk, OnErr, map};
ghost use Rattle.zone_model.specs.Bare.{bare_entry};
ghost use Rattle.gate_workers.specs.Workers.{written};

use az_base::{NoMemory, Options, ThreadNo};
use std::alloc::Global;
use zone_gate::Kept;
use zone_model::{Call, Entry, Reply};

#[derive(Drop)]
pub struct Diary {
    pub options: Options,
    pub entries: Vec<Entry>,
}

impl Kept for Diary {
    ghost list = { λ d. map bare_entry d.entries.items };

    ghost chosen = { λ d. d.options };

    ghost grey = { λ _. 0 };

    ghost black = { λ _. 0 };

    fn entries(&self) -> &[Entry] {
        self.entries.as_slice()
    }

    fn options(&self) -> Options {
        self.options
    }
}

impl Diary {
    pub fn new(alloc: Global, options: Options) -> Diary
        ensures { (result.entries.items ≡ []) × (result.options ≡ options) }
    {
        Diary {
            options,
            entries: Vec::new(alloc),
        }
    }

    /// An entry that has the number of the line.
    pub fn write(&mut self, thread: ThreadNo, line: u64) -> Result<(), NoMemory>
        ensures ok { OnOk result (map bare_entry self.new.entries.items ≡ map bare_entry self.old.entries.items ++ written thread (line ∷ [])) }
        ensures err { OnErr result (self.new.entries.items ≡ self.old.entries.items) }
        ensures options { self.new.options ≡ self.old.options }
    {
        let entry = Entry {
            thread,
            call: Call::Stats,
            reply: Reply::Number(line),
        };
        match self.entries.push(entry) {
            Ok(()) => Ok(()),
            Err(_) => Err(NoMemory),
        }
    }
}
