//! Where a chart has its lanes and lines.
ghost use Rattle.std.specs.Prelude.{◌≡◌, ◌≤◌};

/// How large a chart is. Places are in pixels from its upper left corner.
#[derive(Clone, Copy)]
pub struct Plan {
    pub harts: u64,
    /// How many lines of memory have a bar in each cache's lane.
    pub columns: u64,
    /// How many lines of text it is high.
    pub lines: u64,
    ghost few_harts: { harts ≤ 256 },
    ghost few_columns: { columns ≤ 1048576 },
    ghost few_lines: { lines ≤ 1048576 },
}

/// How many bytes there is room for in the label of what the manager sends.
pub(crate) const ANSWER_ROOM: usize = 27;

/// The same of an event's text.
pub(crate) const LABEL_ROOM: usize = 27;

/// The same of where an instruction lies.
pub(crate) const SITE_ROOM: usize = 17;

/// The same of the name of a line of memory.
pub(crate) const COLUMN_ROOM: usize = 12;

impl Plan {
    ghost use Rattle.run_chart.specs.Plan as place;

    pub(crate) fn line_top(line: u64) -> u64
        requires { line ≤ 1048576 }
        ensures value { result ≡ place.line_top line }
        ensures small { result ≤ 15728768 }
    {
        128 + 15 * line
    }

    pub(crate) fn baseline(line: u64) -> u64
        requires { line ≤ 1048576 }
        ensures { result ≡ place.baseline line }
    {
        Plan::line_top(line) + 11
    }

    pub(crate) fn wire(line: u64) -> u64
        requires { line ≤ 1048576 }
        ensures { result ≡ place.wire line }
    {
        Plan::line_top(line) + 13
    }

    pub(crate) fn bottom(&self) -> u64
        ensures { result ≡ place.bottom self.now }
    {
        Plan::line_top(self.lines)
    }

    fn cache_width(&self) -> u64
        ensures value { result ≡ place.cache_width self.now }
        ensures small { result ≤ 12582928 }
    {
        16 + 12 * self.columns
    }

    /// How wide what a core did is.
    fn note_width(&self) -> u64
        ensures value { result ≡ place.note_width self.now }
        ensures small { result ≤ 430 }
    {
        match self.harts {
            ..=1 => 430,
            2 => 272,
            3..=4 => 138,
            5..=6 => 100,
            _ => 68,
        }
    }

    /// How wide the labels of what a cache sends are.
    fn message_width(&self) -> u64
        ensures value { result ≡ place.message_width self.now }
        ensures small { result ≤ 150 }
    {
        match self.harts {
            ..=2 => 150,
            3..=4 => 42,
            _ => 6,
        }
    }

    fn wires_width(&self) -> u64
        ensures value { result ≡ place.wires_width self.now }
        ensures small { result ≤ 70 }
    {
        match self.harts {
            ..=2 => 70,
            3..=4 => 40,
            _ => 22,
        }
    }

    /// How many bytes there is room for in a line of what a core did.
    pub(crate) fn note_room(&self) -> usize
        ensures value { result ≡ place.note_room self.now }
        ensures some { 3 ≤ result }
    {
        match self.harts {
            ..=1 => 69,
            2 => 44,
            3..=4 => 21,
            5..=6 => 15,
            _ => 10,
        }
    }

    /// The same of the label of what a cache sends, which no other text follows up to the next cache.
    pub(crate) fn message_room(&self) -> usize
        ensures value { result ≡ place.message_room self.now }
        ensures some { 3 ≤ result }
    {
        match self.harts {
            ..=4 => 35,
            5..=6 => 20,
            _ => 15,
        }
    }

    fn hart_width(&self) -> u64
        ensures value { result ≡ place.hart_width self.now }
        ensures small { result ≤ 12583578 }
    {
        self.note_width() + self.cache_width() + self.message_width() + self.wires_width()
    }

    pub(crate) fn core(&self, hart: u64) -> u64
        requires { hart ≤ 256 }
        ensures value { result ≡ place.core self.now hart }
        ensures small { result ≤ 4294967296 }
    {
        286 + hart * self.hart_width()
    }

    pub(crate) fn cache(&self, hart: u64) -> u64
        requires { hart ≤ 256 }
        ensures value { result ≡ place.cache self.now hart }
        ensures small { result ≤ 4294967726 }
    {
        self.core(hart) + self.note_width()
    }

    pub(crate) fn cache_side(&self, hart: u64) -> u64
        requires { hart ≤ 256 }
        ensures value { result ≡ place.cache_side self.now hart }
        ensures small { result ≤ 8589934592 }
    {
        self.cache(hart) + self.cache_width()
    }

    pub(crate) fn wires(&self, hart: u64) -> u64
        requires { hart ≤ 256 }
        ensures value { result ≡ place.wires self.now hart }
        ensures small { result ≤ 8589934792 }
    {
        self.cache_side(hart) + self.message_width()
    }

    pub(crate) fn wires_end(&self, hart: u64) -> u64
        requires { hart ≤ 256 }
        ensures { result ≡ place.wires_end self.now hart }
    {
        self.wires(hart) + self.wires_width()
    }

    pub(crate) fn manager(&self) -> u64
        ensures value { result ≡ place.manager self.now }
        ensures small { result ≤ 4294967486 }
    {
        self.core(self.harts) + 170
    }

    pub(crate) fn width(&self) -> u64
        ensures { result ≡ place.width self.now }
    {
        self.manager() + 50
    }

    pub(crate) fn height(&self) -> u64
        ensures { result ≡ place.height self.now }
    {
        self.bottom() + 16
    }

    pub(crate) fn bar(&self, hart: u64, column: u64) -> u64
        requires hart { hart ≤ 256 }
        requires column { column ≤ 1048576 }
        ensures { result ≡ place.bar self.now hart column }
    {
        self.cache(hart) + 8 + 12 * column
    }
}
