// The automaton of a record's children, and the states that it begins in, by kind. Made by tools/children.py from the kinds table; the proofs
// compute that both are right (proofs/Children).
use crate::begin::{Asked, Head};
use crate::walk::State;

// How many states there are.
pub(crate) const STATE_COUNT: usize = 42;

pub(crate) static STATES: [State; STATE_COUNT] = [
    State {
        next: *b"\x00\x00\x00\x00\x00\x00\x00\x00\x00\x00\x00\x00\x00\x00\x00\x00\x00\x00\x00\x00\x00",
        ends: false,
    },
    State {
        next: *b"\x00\x00\x00\x00\x00\x00\x00\x00\x00\x00\x00\x01\x01\x00\x00\x00\x00\x00\x00\x00\x00",
        ends: true,
    },
    State {
        next: *b"\x00\x17\x00\x00\x00\x00\x00\x00\x00\x00\x00\x00\x00\x00\x00\x00\x00\x00\x00\x00\x00",
        ends: false,
    },
    State {
        next: *b"\x00\x18\x00\x00\x00\x00\x00\x00\x00\x00\x00\x00\x00\x00\x00\x00\x00\x00\x00\x00\x00",
        ends: false,
    },
    State {
        next: *b"\x00\x00\x00\x00\x00\x00\x00\x00\x00\x00\x00\x00\x00\x00\x00\x00\x00\x00\x00\x00\x00",
        ends: true,
    },
    State {
        next: *b"\x00\x07\x00\x00\x00\x00\x00\x00\x00\x00\x00\x00\x00\x00\x00\x00\x00\x00\x00\x00\x00",
        ends: false,
    },
    State {
        next: *b"\x00\x00\x00\x07\x00\x00\x00\x00\x00\x00\x00\x00\x00\x00\x00\x00\x00\x00\x00\x00\x00",
        ends: false,
    },
    State {
        next: *b"\x00\x00\x00\x04\x00\x00\x00\x00\x00\x00\x00\x00\x00\x00\x00\x00\x00\x00\x00\x00\x00",
        ends: false,
    },
    State {
        next: *b"\x00\x00\x00\x08\x00\x00\x00\x00\x00\x00\x00\x00\x00\x00\x00\x00\x00\x00\x00\x00\x00",
        ends: true,
    },
    State {
        next: *b"\x00\x00\x00\x00\x09\x00\x00\x00\x00\x00\x00\x00\x00\x00\x00\x00\x00\x00\x00\x00\x00",
        ends: true,
    },
    State {
        next: *b"\x00\x00\x00\x00\x19\x00\x00\x00\x00\x00\x00\x00\x00\x00\x00\x00\x00\x00\x00\x00\x00",
        ends: false,
    },
    State {
        next: *b"\x00\x00\x00\x00\x00\x0b\x0b\x0b\x00\x00\x00\x00\x00\x00\x00\x00\x00\x00\x00\x00\x00",
        ends: true,
    },
    State {
        next: *b"\x00\x00\x00\x00\x00\x0c\x1a\x1a\x00\x00\x00\x00\x00\x00\x00\x00\x00\x00\x00\x00\x00",
        ends: false,
    },
    State {
        next: *b"\x00\x00\x00\x00\x00\x00\x04\x04\x00\x00\x00\x00\x00\x00\x00\x00\x00\x00\x00\x00\x00",
        ends: false,
    },
    State {
        next: *b"\x00\x00\x00\x00\x00\x00\x0e\x0e\x00\x00\x00\x00\x00\x00\x00\x00\x00\x00\x00\x00\x00",
        ends: true,
    },
    State {
        next: *b"\x00\x1b\x00\x00\x00\x00\x00\x00\x00\x00\x00\x00\x00\x00\x00\x00\x00\x00\x00\x00\x00",
        ends: false,
    },
    State {
        next: *b"\x00\x00\x00\x00\x00\x00\x1c\x1c\x00\x00\x00\x00\x00\x00\x00\x00\x00\x00\x00\x00\x00",
        ends: false,
    },
    State {
        next: *b"\x00\x00\x00\x00\x00\x00\x1d\x1d\x00\x00\x00\x00\x00\x00\x00\x00\x00\x00\x00\x00\x00",
        ends: false,
    },
    State {
        next: *b"\x00\x1e\x00\x00\x00\x00\x00\x00\x00\x00\x00\x00\x00\x00\x00\x00\x00\x00\x00\x00\x00",
        ends: false,
    },
    State {
        next: *b"\x00\x0e\x00\x00\x00\x00\x00\x00\x00\x00\x00\x00\x00\x00\x00\x00\x00\x00\x00\x00\x00",
        ends: false,
    },
    State {
        next: *b"\x00\x00\x00\x0e\x00\x00\x00\x00\x00\x00\x00\x00\x00\x00\x00\x00\x00\x00\x00\x00\x00",
        ends: false,
    },
    State {
        next: *b"\x00\x1f\x00\x00\x00\x00\x00\x00\x00\x00\x00\x00\x00\x00\x00\x00\x00\x00\x00\x00\x00",
        ends: false,
    },
    State {
        next: *b"\x00\x20\x00\x00\x00\x00\x00\x00\x00\x00\x00\x00\x00\x00\x00\x00\x00\x00\x00\x00\x00",
        ends: false,
    },
    State {
        next: *b"\x00\x00\x17\x00\x00\x00\x04\x00\x00\x00\x00\x00\x00\x00\x00\x00\x00\x00\x00\x00\x00",
        ends: false,
    },
    State {
        next: *b"\x00\x00\x18\x21\x00\x00\x00\x00\x00\x00\x00\x00\x00\x00\x00\x00\x00\x00\x00\x00\x00",
        ends: false,
    },
    State {
        next: *b"\x00\x00\x00\x0d\x00\x00\x00\x00\x00\x00\x00\x00\x00\x00\x00\x00\x00\x00\x00\x00\x00",
        ends: false,
    },
    State {
        next: *b"\x00\x00\x00\x00\x00\x0c\x1a\x1a\x00\x00\x00\x00\x00\x00\x00\x00\x00\x00\x00\x00\x00",
        ends: true,
    },
    State {
        next: *b"\x00\x22\x00\x00\x00\x00\x00\x00\x00\x00\x00\x00\x00\x00\x00\x00\x00\x00\x00\x00\x00",
        ends: false,
    },
    State {
        next: *b"\x00\x00\x00\x00\x00\x00\x00\x00\x00\x00\x00\x00\x00\x23\x00\x24\x00\x25\x00\x00\x00",
        ends: false,
    },
    State {
        next: *b"\x00\x00\x00\x00\x00\x00\x00\x00\x00\x26\x00\x00\x00\x00\x00\x00\x00\x00\x00\x00\x00",
        ends: false,
    },
    State {
        next: *b"\x00\x27\x00\x00\x00\x00\x00\x00\x00\x00\x00\x00\x00\x00\x00\x00\x00\x00\x00\x00\x00",
        ends: false,
    },
    State {
        next: *b"\x00\x00\x00\x00\x00\x00\x00\x00\x00\x00\x00\x00\x00\x00\x00\x00\x00\x00\x00\x0e\x00",
        ends: false,
    },
    State {
        next: *b"\x00\x00\x00\x00\x00\x00\x00\x00\x00\x00\x00\x00\x00\x00\x00\x00\x00\x00\x00\x0e\x0e",
        ends: false,
    },
    State {
        next: *b"\x00\x00\x00\x00\x00\x00\x04\x00\x00\x00\x00\x00\x00\x00\x00\x00\x00\x00\x00\x00\x00",
        ends: false,
    },
    State {
        next: *b"\x00\x22\x00\x00\x00\x00\x0e\x0e\x00\x00\x00\x00\x00\x00\x00\x00\x00\x00\x00\x00\x00",
        ends: true,
    },
    State {
        next: *b"\x00\x00\x00\x00\x00\x00\x00\x00\x00\x00\x00\x00\x00\x00\x04\x00\x00\x00\x00\x00\x00",
        ends: false,
    },
    State {
        next: *b"\x00\x00\x00\x00\x00\x00\x00\x00\x00\x00\x00\x00\x00\x00\x00\x00\x04\x00\x00\x00\x00",
        ends: false,
    },
    State {
        next: *b"\x00\x00\x00\x00\x00\x00\x00\x00\x00\x00\x00\x00\x00\x00\x00\x00\x00\x00\x04\x00\x00",
        ends: false,
    },
    State {
        next: *b"\x00\x00\x00\x00\x00\x00\x00\x00\x00\x26\x00\x00\x00\x00\x00\x00\x00\x00\x00\x00\x00",
        ends: true,
    },
    State {
        next: *b"\x00\x27\x00\x00\x28\x00\x04\x04\x00\x00\x00\x00\x00\x00\x00\x00\x00\x00\x00\x00\x00",
        ends: false,
    },
    State {
        next: *b"\x00\x00\x00\x29\x00\x00\x00\x00\x00\x00\x00\x00\x00\x00\x00\x00\x00\x00\x00\x00\x00",
        ends: false,
    },
    State {
        next: *b"\x00\x00\x00\x00\x28\x00\x04\x04\x00\x00\x00\x00\x00\x00\x00\x00\x00\x00\x00\x00\x00",
        ends: false,
    },
];

// How many rows there are, one for each number up to the last kind; and for each what it asks of low and high, and the states that the children
// begin in, by low.
pub(crate) const KINDS: usize = 43;

pub(crate) static HEADS: [Option<Head>; KINDS] = [
    None,
    Some(Head {
        asked: Asked::Parameters,
        begins: b"\x02\x02\x03\x03",
    }),
    Some(Head {
        asked: Asked::Low,
        begins: b"\x04",
    }),
    Some(Head {
        asked: Asked::Low,
        begins: b"\x05",
    }),
    Some(Head {
        asked: Asked::Low,
        begins: b"\x04",
    }),
    Some(Head {
        asked: Asked::Low,
        begins: b"\x04\x04\x04\x04\x04\x04\x04\x04\x04\x04\x04\x04\x04\x04\x04\x04\x04\x04\x04\x04\x04\x04\x04\x04",
    }),
    Some(Head {
        asked: Asked::Low,
        begins: b"\x04",
    }),
    Some(Head {
        asked: Asked::Bits,
        begins: b"\x04",
    }),
    Some(Head {
        asked: Asked::Low,
        begins: b"\x06",
    }),
    Some(Head {
        asked: Asked::Low,
        begins: b"\x07",
    }),
    Some(Head {
        asked: Asked::Low,
        begins: b"\x08",
    }),
    Some(Head {
        asked: Asked::Wide,
        begins: b"\x07",
    }),
    Some(Head {
        asked: Asked::Bounded,
        begins: b"\x07",
    }),
    Some(Head {
        asked: Asked::Low,
        begins: b"\x04",
    }),
    Some(Head {
        asked: Asked::Low,
        begins: b"\x04",
    }),
    Some(Head {
        asked: Asked::Low,
        begins: b"\x09",
    }),
    Some(Head {
        asked: Asked::Low,
        begins: b"\x09",
    }),
    Some(Head {
        asked: Asked::Low,
        begins: b"\x0a",
    }),
    Some(Head {
        asked: Asked::Low,
        begins: b"\x0b\x0c",
    }),
    Some(Head {
        asked: Asked::Low,
        begins: b"\x0d",
    }),
    Some(Head {
        asked: Asked::Low,
        begins: b"\x0d",
    }),
    Some(Head {
        asked: Asked::Low,
        begins: b"\x0d",
    }),
    Some(Head {
        asked: Asked::Low,
        begins: b"\x04",
    }),
    Some(Head {
        asked: Asked::Low,
        begins: b"\x04\x04",
    }),
    Some(Head {
        asked: Asked::Low,
        begins: b"\x04",
    }),
    Some(Head {
        asked: Asked::Low,
        begins: b"\x04",
    }),
    Some(Head {
        asked: Asked::Low,
        begins: b"\x04",
    }),
    Some(Head {
        asked: Asked::Low,
        begins: b"\x04",
    }),
    Some(Head {
        asked: Asked::Low,
        begins: b"\x04",
    }),
    Some(Head {
        asked: Asked::Low,
        begins: b"\x04",
    }),
    Some(Head {
        asked: Asked::Low,
        begins: b"\x0d",
    }),
    Some(Head {
        asked: Asked::Low,
        begins: b"\x0e",
    }),
    Some(Head {
        asked: Asked::Low,
        begins: b"\x0e",
    }),
    Some(Head {
        asked: Asked::Low,
        begins: b"\x0e",
    }),
    Some(Head {
        asked: Asked::Names,
        begins: b"\x0f",
    }),
    Some(Head {
        asked: Asked::Low,
        begins: b"\x10",
    }),
    Some(Head {
        asked: Asked::Low,
        begins: b"\x11",
    }),
    Some(Head {
        asked: Asked::Low,
        begins: b"\x00\x0a\x0a\x0d\x0a\x0d\x0d",
    }),
    Some(Head {
        asked: Asked::Pairs,
        begins: b"\x12",
    }),
    Some(Head {
        asked: Asked::Low,
        begins: b"\x00\x13\x14\x14\x0e\x14\x0e\x0e\x0e\x14\x13\x15\x16\x13\x14",
    }),
    Some(Head {
        asked: Asked::Wide,
        begins: b"\x04",
    }),
    Some(Head {
        asked: Asked::Low,
        begins: b"\x01",
    }),
    Some(Head {
        asked: Asked::Low,
        begins: b"\x05",
    }),
];
