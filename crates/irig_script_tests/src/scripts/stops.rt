//! Worked scripts with what each of their lines leaves.

use irig_edit::Session;
use irig_script::MemoryShelf;

/// What there is after the lines within the first `read` bytes of a script, which print the first
/// `printed` bytes of what it prints: `pulses`, `past` steps back, and `texts` written.
#[derive(Clone, Copy)]
pub struct Stop {
    pub read: usize,
    pub printed: usize,
    pub pulses: usize,
    pub past: usize,
    pub texts: usize,
}

/// A script on two pulses, with a stop before its first line and after each.
#[derive(Clone, Copy)]
pub struct Worked<'a> {
    pub script: &'a [u8],
    pub printed: &'a [u8],
    pub stops: &'a [Stop],
}

/// Two writes: an edit, its text, and the text after the edit was undone.
pub static INVERTED: Worked<'static> = Worked {
    script: b"invert 110 250\n,list\nwrite\nundo\n,list\nwrite\n",
    printed: b"1 100 110 zero\n2 120 200 position\n3 250 280 zero\n179\n1 100 120 zero\n\
        2 200 280 position\n163\n",
    stops: &[
        Stop {
            read: 0,
            printed: 0,
            pulses: 2,
            past: 0,
            texts: 0,
        },
        Stop {
            read: 15,
            printed: 0,
            pulses: 3,
            past: 1,
            texts: 0,
        },
        Stop {
            read: 21,
            printed: 49,
            pulses: 3,
            past: 1,
            texts: 0,
        },
        Stop {
            read: 27,
            printed: 53,
            pulses: 3,
            past: 1,
            texts: 1,
        },
        Stop {
            read: 32,
            printed: 53,
            pulses: 2,
            past: 0,
            texts: 1,
        },
        Stop {
            read: 38,
            printed: 87,
            pulses: 2,
            past: 0,
            texts: 1,
        },
        Stop {
            read: 44,
            printed: 91,
            pulses: 2,
            past: 0,
            texts: 2,
        },
    ],
};

/// It ends amid a line, which has no stop: a failed read or write comes before it is obeyed.
pub static DELETED: Worked<'static> = Worked {
    script: b",list\n1 delete\n1 spl",
    printed: b"1 100 120 zero\n2 200 280 position\n",
    stops: &[
        Stop {
            read: 0,
            printed: 0,
            pulses: 2,
            past: 0,
            texts: 0,
        },
        Stop {
            read: 6,
            printed: 34,
            pulses: 2,
            past: 0,
            texts: 0,
        },
        Stop {
            read: 15,
            printed: 34,
            pulses: 1,
            past: 1,
            texts: 0,
        },
    ],
};

/// All bytes if the text has fewer.
pub fn front(text: &[u8], bytes: usize) -> &[u8] {
    text.split_at(bytes.min(text.len())).0
}

/// The last stop whose lines are within this many bytes of the script.
pub fn last_read(stops: &[Stop], bytes: usize) -> Option<Stop> {
    let mut last = None;
    for stop in stops {
        if stop.read <= bytes {
            last = Some(*stop);
        }
    }
    last
}

/// The first stop whose lines print more than an output takes. Its last line could not be printed
/// whole, so it is the last one obeyed.
pub fn first_printing(stops: &[Stop], bytes: usize) -> Option<Stop> {
    for stop in stops {
        if stop.printed > bytes {
            return Some(*stop);
        }
    }
    None
}

/// `read` and `printed` of the stop are not compared.
pub fn stands(stop: Stop, session: &Session, shelf: &MemoryShelf) -> bool {
    session.len() == stop.pulses
        && session.steps_back() == stop.past
        && shelf.texts().len() == stop.texts
}
