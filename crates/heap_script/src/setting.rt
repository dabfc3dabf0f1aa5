//! The options that a script sets.
ghost use Rattle.std.specs.Prelude.{◌≡◌};
ghost use Rattle.heap_script.specs.Settings.{with_setting};

use az_base::Options;

/// What an option line says: an option, and its number.
#[derive(Clone, Copy, Debug)]
pub enum Setting {
    Heap(u32),
    Local(u32),
    Serials(u64),
    Counts(u32),
    Pending(u32),
}

impl Setting {
    /// These options with this one set.
    pub fn onto(self, options: Options) -> Options
        ensures { result ≡ with_setting options self }
    {
        match self {
            Setting::Heap(heap_quanta) => Options {
                heap_quanta,
                ..options
            },
            Setting::Local(local_quanta) => Options {
                local_quanta,
                ..options
            },
            Setting::Serials(serials) => Options { serials, ..options },
            Setting::Counts(counts) => Options { counts, ..options },
            Setting::Pending(pending) => Options { pending, ..options },
        }
    }
}
