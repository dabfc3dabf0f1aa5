//! What the lines of a text say, before its last one.
ghost use Rattle.std.specs.Prelude.{◌≡◌, ◌≤◌, ◌<◌, ◌+◌, [], ◌++◌, ◌∷◌, Err, OnOk, OnErr, IsTrue, IsFalse};
ghost use Rattle.az_base.specs.OptionRanges.{usual_options};
ghost use Rattle.zone_model.specs.Bare.{bare_entry};
ghost use Rattle.history_text.specs.Lines.{IsSetting};
ghost use Rattle.history_text.specs.Drafts.{IsDraft, TakesLine, place_of, with_setting, with_line};

use crate::laws::lines_have_one_reading;
use crate::lines::{HistoryLine, Setting};
use crate::read::read_line;
use az_base::Options;
use call_words::{ArgumentErr, OptionName};
use std::alloc::Global;
use zone_history::Journal;
use zone_model::{Entry, Stats};

/// The place after all options.
const ENTRIES: u64 = 5;

/// The options and the entries of the lines so far.
#[derive(Drop)]
pub struct Draft {
    pub options: Options,
    pub journal: Journal,
    /// The place of the first option that may still come, in their order; 5 where none may.
    next: u64,
}

fn place(name: OptionName) -> u64
    ensures { result ≡ place_of name }
{
    match name {
        OptionName::Heap => 0,
        OptionName::Local => 1,
        OptionName::Serials => 2,
        OptionName::Counts => 3,
        OptionName::Pending => 4,
    }
}

fn with_setting(options: Options, setting: Setting) -> Options
    requires { IsSetting setting }
    ensures { result ≡ with_setting options setting.name setting.number }
{
    let number = setting.number;
    match setting.name {
        OptionName::Heap => Options {
            heap_quanta: number as u32,
            ..options
        },
        OptionName::Local => Options {
            local_quanta: number as u32,
            ..options
        },
        OptionName::Serials => Options {
            serials: number,
            ..options
        },
        OptionName::Counts => Options {
            counts: number as u32,
            ..options
        },
        OptionName::Pending => Options {
            pending: number as u32,
            ..options
        },
    }
}

impl Draft {
    /// Nothing was read.
    pub fn new(alloc: Global) -> Draft
        ensures options { result.options ≡ usual_options }
        ensures entries { result.journal.entries ≡ [] }
        ensures owed { result.journal.owed ≡ 0 }
        ensures next { result.next ≡ 0 }
    {
        Draft {
            options: Options::usual(),
            journal: Journal::new(alloc),
            next: 0,
        }
    }

    /// An option; false, which changes nothing, where it can't come any more.
    fn set(&mut self, setting: Setting) -> bool
        requires { IsSetting setting }
        ensures yes { IsTrue result → self.old.next ≤ place_of setting.name }
        ensures set { IsTrue result → self.new ≡ with_line self.old setting }
        ensures not { IsFalse result → place_of setting.name < self.old.next }
        ensures same { IsFalse result → self.new ≡ self.old }
    {
        let place = place(setting.name);
        if place < self.next {
            return false;
        }
        self.options = with_setting(self.options, setting);
        self.next = place + 1;
        true
    }

    /// One entry more.
    fn push(&mut self, entry: Entry) -> Result<(), ArgumentErr>
        ensures options { self.new.options ≡ self.old.options }
        ensures entries { OnOk result (self.new.journal.entries ≡ self.old.journal.entries ++ bare_entry entry ∷ []) }
        ensures owed { self.new.journal.owed ≡ self.old.journal.owed }
        ensures next { OnOk result (self.new.next ≡ 5) }
        ensures err { OnErr result (result ≡ Err ArgumentErr.NoMemory) }
    {
        let Ok(()) = self.journal.reserve(1) else {
            return Err(ArgumentErr::NoMemory);
        };
        self.journal.push_reserved(entry);
        self.next = ENTRIES;
        Ok(())
    }

    /// Takes a line, which comes without its line feed; the statistics where it is the last one. Wrong exactly where no
    /// text has this line after the ones before. What was read is written to `scratch`, whose content is lost. O(bytes).
    pub fn take_line(
        &mut self,
        alloc: Global,
        scratch: &mut String,
        bytes: &[u8],
    ) -> Result<Option<Stats>, ArgumentErr>
        requires { IsDraft self.old }
        ensures { TakesLine self.old self.new bytes.now result }
    {
        lines_have_one_reading();
        match read_line(alloc, scratch, bytes)? {
            HistoryLine::Setting(setting) => {
                if self.set(setting) {
                    Ok(None)
                } else {
                    Err(ArgumentErr::Wrong)
                }
            }
            HistoryLine::Entry(entry) => {
                self.push(entry)?;
                Ok(None)
            }
            HistoryLine::End(count, stats) => {
                if count == self.journal.entries().len() as u64 {
                    Ok(Some(stats))
                } else {
                    Err(ArgumentErr::Wrong)
                }
            }
        }
    }
}
