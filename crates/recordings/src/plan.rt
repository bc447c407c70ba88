use crate::memory::Memory;
use crate::show::number_of;
use calls::fault::Decline;
use layout::settings::Settings;
use layout::sizes::{BENCH, GROUP};
use std::alloc::{AllocError, Global};
use std::fmt;

/// A call of a plan.
#[derive(Clone, Copy)]
pub(crate) enum Item {
    /// A record of so many bytes.
    Record(usize),
    /// A mark of this kind.
    Mark(u8),
    /// A warning.
    Warn,
}

/// How much of the tape, the bench and the track buffer is lent to a call.
#[derive(Clone, Copy)]
pub(crate) struct Lent {
    pub(crate) tracks: usize,
    pub(crate) bench: usize,
    pub(crate) buffer: usize,
}

/// What came of a call: its answer, and what the lent memory holds.
#[derive(Clone, Copy)]
pub(crate) struct Seen {
    pub(crate) answer: Result<(), Decline>,
    pub(crate) bench: Memory,
    pub(crate) track: Memory,
}

impl fmt::Display for Seen {
    fn fmt<W: fmt::Write>(&self, f: &mut fmt::Formatter<W>) -> fmt::Result {
        write!(
            f,
            "answer {}, bench {}, track buffer {}",
            number_of(self.answer.err()),
            self.bench,
            self.track
        )
    }
}

/// A call with what is lent to it, and what came of it once it was made.
#[derive(Clone, Copy)]
pub(crate) struct Step {
    pub(crate) item: Item,
    pub(crate) lent: Lent,
    pub(crate) seen: Option<Seen>,
}

/// What a word of a line asks for.
#[derive(Clone, Copy)]
enum Word {
    /// A tape of so many tracks, all of them lent.
    Tracks(usize),
    /// A group buffer of so many bytes.
    Group(usize),
    /// The tap of the settings.
    Tap(u16),
    /// The start of the settings.
    Start(u16),
    /// The end of each group in hex.
    Hex,
    /// Single calls.
    Apart,
    /// So many tracks lent from now on.
    LentTracks(usize),
    /// So many bytes of the bench lent from now on.
    LentBench(usize),
    /// So many words of the track buffer lent from now on.
    LentBuffer(usize),
    /// A call.
    Call(Item),
}

/// A recording as a line gives it.
#[derive(Drop)]
pub(crate) struct Plan {
    pub(crate) settings: Settings,
    /// The bytes of the group buffer.
    pub(crate) group: usize,
    /// The tracks of the tape.
    pub(crate) tracks: usize,
    /// What is lent to the next call; in the end, to close.
    pub(crate) lent: Lent,
    /// Whether the calls are made one by one, and not as one list.
    pub(crate) apart: bool,
    /// Whether the end of each group is printed in hex.
    pub(crate) hex: bool,
    pub(crate) steps: Vec<Step>,
    /// How many words are not understood.
    pub(crate) unclear: usize,
}

/// The lower sixteen bits of a number.
fn low_word(number: usize) -> u16 {
    (number % 65_536) as u16
}

impl Word {
    /// The meaning of a name, or of a name and a number; none where it has none.
    fn read(word: &str) -> Option<Word> {
        let (name, number) = word.split_once('=').unwrap_or((word, "0"));
        let number = number.parse::<usize>().unwrap_or(0);
        match name {
            "tracks" => Some(Word::Tracks(number)),
            "group" => Some(Word::Group(number)),
            "tap" => Some(Word::Tap(low_word(number))),
            "start" => Some(Word::Start(low_word(number))),
            "hex" => Some(Word::Hex),
            "apart" => Some(Word::Apart),
            "lent" => Some(Word::LentTracks(number)),
            "bench" => Some(Word::LentBench(number)),
            "buffer" => Some(Word::LentBuffer(number)),
            "record" => Some(Word::Call(Item::Record(number))),
            "mark" => Some(Word::Call(Item::Mark((number % 256) as u8))),
            "warn" => Some(Word::Call(Item::Warn)),
            _ => None,
        }
    }
}

impl Plan {
    /// A plan without calls, on a tape without tracks.
    fn new(heap: Global) -> Plan {
        Plan {
            settings: Settings {
                tap: 3,
                start: 12_345,
            },
            group: GROUP,
            tracks: 0,
            lent: Lent {
                tracks: 0,
                bench: BENCH,
                buffer: 4_608,
            },
            apart: false,
            hex: false,
            steps: Vec::new(heap),
            unclear: 0,
        }
    }

    /// Lends so many tracks, bytes and words from now on, to single calls.
    fn lend(&mut self, lent: Lent) {
        self.lent = lent;
        self.apart = true;
    }

    /// Adds a call.
    fn add(&mut self, item: Item) -> Result<(), AllocError> {
        self.steps.push(Step {
            item,
            lent: self.lent,
            seen: None,
        })?;
        Ok(())
    }

    /// Takes what a word asks for.
    fn take(&mut self, word: Word) -> Result<(), AllocError> {
        let lent = self.lent;
        match word {
            Word::Tracks(tracks) => {
                self.tracks = tracks;
                self.lent.tracks = tracks;
            }
            Word::Group(bytes) => self.group = bytes,
            Word::Tap(tap) => self.settings.tap = tap,
            Word::Start(start) => self.settings.start = start,
            Word::Hex => self.hex = true,
            Word::Apart => self.apart = true,
            Word::LentTracks(tracks) => self.lend(Lent { tracks, ..lent }),
            Word::LentBench(bench) => self.lend(Lent { bench, ..lent }),
            Word::LentBuffer(buffer) => self.lend(Lent { buffer, ..lent }),
            Word::Call(item) => self.add(item)?,
        }
        Ok(())
    }

    /// The plan that the words of a line give.
    pub(crate) fn read(heap: Global, words: &str) -> Result<Plan, AllocError> {
        let mut plan = Plan::new(heap);
        for word in words.split_whitespace() {
            match Word::read(word) {
                Some(word) => plan.take(word)?,
                None => plan.unclear = plan.unclear.saturating_add(1),
            }
        }
        Ok(plan)
    }
}
