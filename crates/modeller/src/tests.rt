//! Texts and what is told of them, by hand from the rules.

use super::drawing::Drawing;
use super::types::{Refused, Reply};
use solid::types::Told;

/// A text, and how many questions it asks, or the number and the place of its refusal.
#[derive(Clone, Copy)]
struct Case {
    text: &'static [u8],
    told: Result<usize, (usize, usize)>,
}

const CASES: [Case; 24] = [
    Case {
        text: b"",
        told: Ok(0),
    },
    Case {
        text: b"\n",
        told: Err((1, 0)),
    },
    Case {
        text: b"part a = box 0 2 0 2 0 2\n",
        told: Ok(0),
    },
    Case {
        text: b"part a = box 0 2 0 2 0 2",
        told: Err((1, 24)),
    },
    Case {
        text: b"part a = box 0 2 0 2 0 2\nplace a 1 1 1 1\n",
        told: Ok(1),
    },
    Case {
        text: b"part a = box 2 0 2 0 2 0\nplace a 1 1 1 4096\n",
        told: Ok(1),
    },
    Case {
        text: b"part a = box 0 2 0 2 0 2\nplace b 1 1 1 1\n",
        told: Err((2, 31)),
    },
    Case {
        text: b"place a 1 1 1 1\npart a = box 0 2 0 2 0 2\n",
        told: Err((2, 6)),
    },
    Case {
        text: b"part a = box 0 2 0 2 0 2\npart a = box 0 2 0 2 0 2\n",
        told: Err((2, 30)),
    },
    Case {
        text: b"part a = box -294912 294912 0 2 0 2\n",
        told: Ok(0),
    },
    Case {
        text: b"part a = box -294913 294912 0 2 0 2\n",
        told: Err((4, 13)),
    },
    Case {
        text: b"part a = box 0 2 0 2 0 294913 ",
        told: Err((4, 23)),
    },
    Case {
        text: b"part a = box 0 2 0 2 0 02\n",
        told: Err((1, 24)),
    },
    Case {
        text: b"part a = box 0 2 0 2 0 -0\n",
        told: Err((1, 24)),
    },
    Case {
        text: b"part a = box 0 2 0 2 0 2\nplace a 1 1 1 0\n",
        told: Err((4, 39)),
    },
    Case {
        text: b"part a = box 0 2 0 2 0 2\nplace a 1 1 1 -1\n",
        told: Err((4, 39)),
    },
    Case {
        text: b"part a = box 0 2 0 2 0 2\nplace a 1 1 1 4097\n",
        told: Err((4, 39)),
    },
    Case {
        text: b"part a = box 0 2 0 2 0 2\nplace a 1 1 1 01\n",
        told: Err((4, 39)),
    },
    Case {
        text: b"part a = box 0 2 0 2 0 2\nplace a 1 1 1 -0\n",
        told: Err((1, 40)),
    },
    Case {
        text: b"part a = box 0 2 0 2 0 2\nplace ab 1 1 1 1\n",
        told: Err((2, 31)),
    },
    Case {
        text: b"part box = box 0 2 0 2 0 2\n",
        told: Err((1, 8)),
    },
    Case {
        text: b"part boxy = box 0 2 0 2 0 2\n",
        told: Ok(0),
    },
    Case {
        text: b"part a = half 1 0 0 5\n",
        told: Err((1, 9)),
    },
    Case {
        text: b"part a = box 0 2 0 2 0 2\nmodel a\n",
        told: Err((1, 25)),
    },
];

/// What a text is told: how many questions it asks, or the number and the place of its refusal.
fn outcome(text: &[u8]) -> Result<usize, (usize, usize)> {
    let mut lent = [0u64; 600];
    match Drawing::read(text, &mut lent) {
        Ok(drawing) => Ok(drawing.questions()),
        Err(why) => Err((why.number(), why.place())),
    }
}

#[test]
fn texts_are_taken_or_refused(rt: HostRuntime) {
    for case in CASES {
        assert_eq!(rt; outcome(case.text), case.told);
    }
}

#[test]
fn lent_words_that_are_too_few(rt: HostRuntime) {
    let mut few = [0u64; 222];
    let refused = Drawing::read(b"part a = box 0 2 0 2 0 2\n\n", &mut few).err();
    assert_eq!(rt; refused, Some(Refused::Steps));
    let mut lent = [0u64; 343];
    let text = b"part a = box 0 2 0 2 0 2\nplace a 1 1 1 1\n";
    let Ok(drawing) = Drawing::read(text, &mut lent) else {
        panic!(rt; "the text is taken");
    };
    let mut work = [0u64; 399];
    assert_eq!(rt; drawing.tell(0, &mut work), Err(Refused::Work));
    let mut work = [0u64; 400];
    assert_eq!(rt;
        drawing.tell(0, &mut work),
        Ok(Some(Reply::Place(Told::In)))
    );
    assert_eq!(rt; drawing.tell(1, &mut work), Ok(None));
}
