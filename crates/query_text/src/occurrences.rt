//! Which options appeared before another.
ghost use Rattle.std.specs.Prelude.{◌≡◌};
ghost use Rattle.query_text.specs.Occurrences.{occurred_with, nothing_occurred};

/// Which of the options that may appear only once appeared before.
#[derive(Clone, Copy)]
pub(crate) struct Occurred {
    /// Whether `ep` appeared.
    pub ep: bool,
    /// Whether `d` appeared.
    pub sector: bool,
    /// Whether `lt` appeared.
    pub lifetime: bool,
    /// Whether `base` appeared.
    pub base: bool,
    /// Whether `page` appeared.
    pub page: bool,
    /// Whether `count` appeared.
    pub count: bool,
}

impl Occurred {
    /// Returns the value for no options.
    pub fn nothing() -> Occurred
        ensures { result ≡ nothing_occurred }
    {
        Occurred {
            ep: false,
            sector: false,
            lifetime: false,
            base: false,
            page: false,
            count: false,
        }
    }

    /// Returns these with an option of this name.
    pub fn with(self, name: &str) -> Occurred
        ensures { result ≡ occurred_with self name.now }
    {
        Occurred {
            ep: name == "ep" || self.ep,
            sector: name == "d" || self.sector,
            lifetime: name == "lt" || self.lifetime,
            base: name == "base" || self.base,
            page: name == "page" || self.page,
            count: name == "count" || self.count,
        }
    }
}
